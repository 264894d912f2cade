//! The code of an instruction.

ghost use Rattle.std.specs.Prelude.{◌≡◌, IfOk, length};
ghost use Rattle.tz_encode.specs.Encoded.{EncodedIn, code_of, meaning_of};
ghost use Rattle.tz_encode.specs.Search.{Found};
ghost use Rattle.tz_table.specs.Table.{rows};
ghost use Rattle.tz_table.specs.declared.decoded.Decoded.TheVariants.{One};

use crate::error::EncodeError;
use crate::search::find;
use tz_bits::{field_name, values};
use tz_table::{Code, Insn, Width};

/// Two halfwords as a code of the width: a narrow code has no second one.
pub fn code_of_halves(width: Width, halves: (u16, u16)) -> Code
    ensures { result ≡ code_of width halves }
{
    let second = match width {
        Width::Narrow => None,
        Width::Wide => Some(halves.1),
    };
    Code {
        first: halves.0,
        second,
    }
}

/// Why there is no code, where the last row of the form blames a number of the instruction.
fn error_of(insn: &Insn, width: Width, blamed: Option<usize>) -> EncodeError
    requires { Found rows width insn.now (length rows) (Err blamed) }
    ensures { EncodedIn rows width insn.now (Err result) }
{
    match blamed {
        None => EncodeError::NoForm,
        Some(number) => match field_name(insn, number) {
            Some(name) => EncodeError::Range(name),
            // Not reached: each number that can be blamed has a name.
            None => EncodeError::NoForm,
        },
    }
}

/// The code of the instruction at the width. Where several rows have one, the earliest in the table gives
/// it, and of its codes the least; `EncodeError` says why there may be none.
pub fn encode(insn: &Insn, width: Width) -> Result<Code, EncodeError>
    ensures encoded { EncodedIn rows width insn.now result }
    ensures again { IfOk result (λ code. meaning_of code ≡ One insn.now width) }
{
    match find(&values(insn), width) {
        Ok(halves) => Ok(code_of_halves(width, halves)),
        Err(blamed) => Err(error_of(insn, width, blamed)),
    }
}
