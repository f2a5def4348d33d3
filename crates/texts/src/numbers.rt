// The numbers of a text, read byte by byte.
ghost use Rattle.std.specs.Prelude.{◌≡◌, ◌≤◌, ◌++◌, true, if◌then◌else◌, None, Ok, Err, vec_items, nat_le};
ghost use Rattle.std.specs.Option.{is_some, option_to_list};
ghost use Rattle.texts.specs.declared.faults.TextFault.TheVariants.{Large, Memory};
ghost use Rattle.texts.specs.Reading.{grown, scanned, Answers};
ghost use Rattle.texts.specs.Steps.{Steps};

use crate::faults::TextFault;
use std::alloc::Global;

// Every number of the text, in order.
pub(crate) fn read_numbers(heap: Global, text: &[u8]) -> Result<Vec<u16>, TextFault>
    ensures { Answers (scanned text.now 0 None) vec_items result }
{
    let mut numbers = Vec::new(heap);
    let mut begun = None;
    for (place, byte) in text.iter().enumerate() {
        begun = step(&mut numbers, begun, place, *byte)?;
    }
    close(&mut numbers, begun)?;
    Ok(numbers)
}

// Takes the byte at `place`, and answers the number that has begun by then.
fn step(
    numbers: &mut Vec<u16>,
    begun: Option<u16>,
    place: usize,
    byte: u8,
) -> Result<Option<u16>, TextFault>
    ensures { Steps numbers.old.items begun place byte numbers.new.items result }
{
    match byte {
        b' ' | b'\t' | b'\n' | b'\r' => {
            close(numbers, begun)?;
            Ok(None)
        }
        b'0'..=b'9' => extend(begun, place, byte).map(Some),
        _ => Err(TextFault::Byte { place }),
    }
}

// Adds the number that has begun, if one has.
fn close(numbers: &mut Vec<u16>, begun: Option<u16>) -> Result<(), TextFault>
    ensures { elim result [ Ok u ↦ numbers.new.items ≡ numbers.old.items ++ option_to_list begun | Err e ↦ (e ≡ Memory) × (is_some begun ≡ true) ] }
{
    if let Some(number) = begun {
        numbers.push(number)?;
    }
    Ok(())
}

// The number that has begun, with the digit at `place` written after it.
fn extend(begun: Option<u16>, place: usize, digit: u8) -> Result<u16, TextFault>
    requires { (48 ≤ digit) × (digit ≤ 57) }
    ensures { result ≡ (if nat_le (grown begun digit) 65535 then Ok (grown begun digit) else Err (Large place)) }
{
    let number = u32::from(begun.unwrap_or(0)) * 10 + u32::from(digit - b'0');
    u16::try_from(number).map_err(|_| TextFault::Large { place })
}
