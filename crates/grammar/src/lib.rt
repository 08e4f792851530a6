// The reading rules, as definitions and laws; and the types that `steps` and `reader` pass on.
//
// specs/ has the rules; docs/FORMAT.md has them in words.
#![tactic(auto)]

ghost use Rattle.std.specs.Prelude.{◌≡◌, ◌+◌, ◌^◌, ◌<◌};
ghost use Rattle.grammar.specs.Memory.{past as past_of};

// What an atom starts with. Plain is a whole atom: its row's kind, and x.
#[derive(Clone, Copy)]
pub enum Start {
    Nothing,
    Number,
    Text,
    Name,
    Paren,
    Plain(u64, u64),
    Other,
}

// The next token, and how many rows are written. The last of them is the root of what was read last. That the token is one of the table's, and that a row is
// written, hold of some cursors only: so they stay requires, and are no ghost fields.
#[derive(Clone, Copy)]
pub struct Cursor {
    pub at: usize,
    pub rows: usize,
}

impl Cursor {
    // Answers the cursor n tokens further on.
    pub fn past(self, n: usize) -> Cursor
        requires { self.at + n < 2 ^ 64 }
        ensures { result ≡ past_of n self }
    {
        Cursor {
            at: self.at + n,
            rows: self.rows,
        }
    }
}
