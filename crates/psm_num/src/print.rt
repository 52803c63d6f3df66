//! A number as text.
ghost use Rattle.std.specs.Prelude.{◌≡◌, ◌++◌, IfOk, OnOk};
ghost use Rattle.std.specs.String.{string_bytes};
ghost use Rattle.psm_num.specs.Printed.{printed, filled};

use crate::dec::Dec;
use itoa::Buffer;
use std::alloc::{AllocError, Global};

impl Dec {
    /// The printed form: a minus sign if it is negative, at least one digit before the point, and exactly as
    /// many decimals as the scale, with no point at scale 0 (ISO/IEC 9075:1992, 6.10).
    #[tactic(auto, using(crate::proofs::Powers::power_pos))]
    pub fn print(self, alloc: Global) -> Result<String, AllocError>
        ensures { IfOk result (λ text. string_bytes text ≡ printed self) }
    {
        let scale = self.scale();
        let size = self.coef().unsigned_abs();
        let unit = 10_u64.pow(scale as u32);
        let mut text = String::new(alloc);
        if self.coef() < 0 {
            text.push('-')?;
        }
        text.push_str(Buffer::new().format(size / unit))?;
        if scale > 0 {
            text.push('.')?;
            push_filled(&mut text, size % unit, scale)?;
        }
        Ok(text)
    }
}

// Appends the number, filled with zeros on the left.
fn push_filled(text: &mut String, number: u64, width: u8) -> Result<(), AllocError>
    ensures { OnOk result (string_bytes text.new ≡ string_bytes text.old ++ filled width number) }
{
    let mut buffer = Buffer::new();
    let digits = buffer.format(number);
    for _zero in 0..(width as usize).saturating_sub(digits.len()) {
        text.push('0')?;
    }
    text.push_str(digits)
}
