// The item at a place of a line of clauses.
ghost use Rattle.std.specs.Prelude.{◌≡◌, cond, ◌+◌, ◌^◌, ◌≤◌, ◌<◌, length, drop};
ghost use Rattle.clauses.specs.Items.{run};
ghost use Rattle.clauses.specs.Literals.{signed};
ghost use Rattle.clauses.specs.Tokens.{ends, wrong, numbered};
ghost use Rattle.clause_items.specs.Found.{front, token_item, item_at};

use crate::numbers::{Number, number_at, skip};

// What stands next: nothing, something wrong, the 0 of a clause, or a literal with its atom's number, from 1; then where it ends.
#[derive(Clone, Copy)]
pub enum Item {
    Stop,
    Broken,
    Ends {
        to: usize,
    },
    Literal {
        positive: bool,
        number: usize,
        to: usize,
    },
}

// The item whose number stands at `at`: 0 ends a clause only without `-`.
fn signed_at(line: &[u8], at: usize, positive: bool) -> Item
    requires { at ≤ length line.now }
    ensures { result ≡ token_item (numbered (cond positive ends wrong) (signed positive) (front (drop at line.now))) (at + run (drop at line.now)) }
{
    let Some(Number { value: number, to }) = number_at(line, at) else {
        return Item::Broken;
    };
    if number != 0 {
        return Item::Literal {
            positive,
            number,
            to,
        };
    }
    if positive {
        return Item::Ends { to };
    }
    Item::Broken
}

// The place behind a `-`, if it stands at `at`. No branch on it: signs are as good as random.
fn past_sign(at: usize, positive: bool) -> usize
    requires { at < 2 ^ 63 }
    ensures { result ≡ cond positive at (at + 1) }
{
    if positive { at } else { at + 1 }
}

// In line: as a call it would be one at each item.
#[inline]
pub fn item_at(line: &[u8], at: usize) -> Item
    requires { at ≤ length line.now }
    ensures { result ≡ item_at at (drop at line.now) }
{
    let from = skip(line, at);
    if line.len() <= from {
        return Item::Stop;
    }
    let positive = line[from] != b'-';
    signed_at(line, past_sign(from, positive), positive)
}
