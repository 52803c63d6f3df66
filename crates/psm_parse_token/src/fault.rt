//! The fault of a file where its parser halts.
ghost use Rattle.std.specs.Prelude.{ℕ, ◌≡◌};
ghost use Rattle.psm_parse_token.specs.Fault.{place_left as place_left_in, fault_at};

use psm_grammar::Halt;
use psm_token::{Place, TokenList};
use psm_tree::ParseFault;

/// The fault of a file whose parser halts: at the token from which that many tokens are left, or at the
/// end of the file where none is.
pub fn fault_of(tokens: &TokenList, halt: Halt) -> ParseFault
    ensures { result ≡ fault_at tokens.now halt }
{
    match halt {
        Halt::Syntax(left) => ParseFault::Syntax(place_left(tokens, left)),
        Halt::Deep(left) => ParseFault::Deep(place_left(tokens, left)),
        Halt::Memory => ParseFault::Memory,
    }
}

/// The place of the token from which that many tokens are left.
fn place_left(tokens: &TokenList, left: usize) -> Place
    ensures { result ≡ place_left_in tokens.now left }
{
    let items = tokens.items();
    match &items[items.len().saturating_sub(left)..] {
        [] => tokens.end(),
        [first, ..] => first.place,
    }
}
