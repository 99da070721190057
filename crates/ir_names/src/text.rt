//! The bytes of a name.
ghost use Rattle.std.specs.Prelude.{◌≡◌, true, IfOk};
ghost use Rattle.ir_token.specs.Names.{has_name, name_at};
ghost use Rattle.ir_names.specs.Ids.{IsTokenOf};
ghost use Rattle.ir_names.specs.Ids as spec;

use crate::read::{all_digits, bytes, number, written};
use attr_ids::{NoMemory, Sequence, Text};
use ir_token::Token;
use itoa::Buffer;
use std::alloc::Global;

/// The bytes of the name of a token: those that it is read as, and of a number its digits without zeros in front.
pub fn name_text(alloc: Global, text: &[u8], token: Token) -> Result<Text, NoMemory>
    requires named { has_name token.kind ≡ true }
    requires token { IsTokenOf text.now token }
    ensures { IfOk result (λ bytes. bytes ≡ spec.name_text (name_at text.now token.kind token.span.from token.span.to)) }
{
    let name = written(text, token);
    if all_digits(name) {
        let mut buffer = Buffer::new();
        let digits = buffer.format(number(name));
        return Sequence::from_slice(alloc, digits.as_bytes());
    }
    Ok(Sequence::from_vec(bytes(alloc, name)?))
}
