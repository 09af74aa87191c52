// Rule numbers in rising order (document 02, W-209; refusal 19).
ghost use Rattle.std.specs.Prelude.{◌≡◌};
ghost use Rattle.rule_index.specs.Flip.{is_rising};

// Whether each number is greater than the one before, and all are below `rules`.
pub fn is_rising(list: &[u16], rules: usize) -> bool
    ensures { result ≡ is_rising 0 rules list.now }
{
    let mut bound: usize = 0;
    for number in list {
        let rule = *number as usize;
        if rule < bound {
            return false;
        }
        if rules <= rule {
            return false;
        }
        bound = rule + 1;
    }
    true
}
