// Tokens, each with the byte behind it.
ghost use Rattle.std.specs.Prelude.{◌≡◌, ◌++◌, OnOk};
ghost use Rattle.civl_tree.specs.Token.{Reserved, Sign, Number};
ghost use Rattle.civl_tree.specs.Spelling.{name_token};
ghost use Rattle.civl_printing.specs.Written.{written_token};

use civl_tree::{Memory, Name};
use itoa::Buffer;

/// A reserved word.
///
/// # Errors
///
/// For want of memory.
#[tactic(auto, using(std::proofs::lemmas::Grind::common_steps), unfolding(crate::specs::Written::written_token))]
pub fn put_word(out: &mut Vec<u8>, word: &[u8]) -> Result<(), Memory>
    ensures { OnOk result (out.new.items ≡ out.old.items ++ written_token (Reserved word.now)) }
{
    out.extend_from_slice(word)?;
    out.push(b' ')?;
    Ok(())
}

/// A name.
#[tactic(auto, using(std::proofs::lemmas::Grind::common_steps), unfolding(crate::specs::Written::written_token))]
pub(crate) fn put_name(out: &mut Vec<u8>, name: &Name) -> Result<(), Memory>
    ensures { OnOk result (out.new.items ≡ out.old.items ++ written_token (name_token name.now)) }
{
    out.extend_from_slice(name.as_slice())?;
    out.push(b' ')?;
    Ok(())
}

/// A number in decimal.
///
/// # Errors
///
/// For want of memory.
#[tactic(auto, using(std::proofs::lemmas::Grind::common_steps), unfolding(crate::specs::Written::written_token))]
pub fn put_number(out: &mut Vec<u8>, number: u32) -> Result<(), Memory>
    ensures { OnOk result (out.new.items ≡ out.old.items ++ written_token (Number number)) }
{
    let mut buffer = Buffer::new();
    let text = buffer.format(number);
    out.extend_from_slice(text.as_bytes())?;
    out.push(b' ')?;
    Ok(())
}

/// A sign. A line ends behind `;`, `{` and `}`.
///
/// # Errors
///
/// For want of memory.
#[tactic(auto, using(std::proofs::lemmas::Grind::common_steps), unfolding(crate::specs::Written::written_token))]
pub fn put_sign(out: &mut Vec<u8>, sign: &[u8]) -> Result<(), Memory>
    ensures { OnOk result (out.new.items ≡ out.old.items ++ written_token (Sign sign.now)) }
{
    out.extend_from_slice(sign)?;
    if sign == b";".as_slice() || (sign == b"{".as_slice() || sign == b"}".as_slice()) {
        out.push(b'\n')?;
    } else {
        out.push(b' ')?;
    }
    Ok(())
}
