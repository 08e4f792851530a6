// A token that is needed.
ghost use Rattle.std.specs.Prelude.{List, ℕ, ◌<◌};
ghost use Rattle.grammar.specs.Memory.{Gives, need as need_of};

use grammar::Cursor;
use refusals::{Refusal, Refused};
use tokens::table::kind_at;

// Goes past a token that must be of this kind; `why` is what is refused where it is another.
#[tactic(auto, unfolding(grammar::specs::Memory::need, grammar::specs::Memory::missing))]
pub fn need(tokens: &[u32], c: Cursor, kind: u32, why: Refusal) -> Result<Cursor, Refused>
    requires { 0 < kind }
    ensures { (t : List ℕ) → Gives (need_of tokens.now kind why c t) result t }
{
    let found = kind_at(tokens, c.at);
    if found == kind {
        return Ok(c.past(1));
    }
    if found == 0 {
        return Err(Refusal::End.at(c.at));
    }
    Err(why.at(c.at))
}
