// The caller's faults (document 01, "Who can be turned back"): refusals 10, 11, 12, 13 in this order.
ghost use Rattle.std.specs.Prelude.{◌≡◌, ◌+◌, ◌≤◌, Ok, Err, ltb};
ghost use Rattle.stores.specs.RuleStore.{is_of};
ghost use Rattle.walks.specs.Answers.{guarded};

use kinds::limits::{Kind, Walk};
use kinds::refusals::Refusal;
use store_check::store_forms::check_rules;

fn is_of(found: Option<Kind>, kind: Kind) -> bool
    ensures { result ≡ is_of kind found }
{
    found == Some(kind)
}

// Whether the store is of the kind, has few enough atoms, the number is below 2^n + extra and the budget allowed.
pub fn check_call(
    words: &[u16],
    kind: Kind,
    number: u64,
    extra: u64,
    budget: u64,
) -> Result<(), Refusal>
    requires { extra ≤ 1 }
    ensures { result ≡ guarded Err kind words.now (λ p. ltb number (p + extra)) budget (Ok tt) }
{
    if !is_of(check_rules(words), kind) {
        return Err(Refusal::RuleStore);
    }
    let n = words[1] as usize;
    if Walk::ATOMS < n {
        return Err(Refusal::TooManyAtoms);
    }
    if (1u64 << n) + extra <= number {
        return Err(Refusal::SetNumber);
    }
    if Walk::BUDGET < budget {
        return Err(Refusal::Budget);
    }
    Ok(())
}
