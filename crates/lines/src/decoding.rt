// From a line to its command.
ghost use Rattle.std.specs.Prelude.{◌≡◌};
ghost use Rattle.words.specs.Readers.{unread};
ghost use Rattle.lines.specs.Decoding.{fields_of, command_of, decoded, accepted};

use crate::commands::Command;
use crate::verbs::Verb;
use engine::Call;
use market::{NewLink, NewParty, NewPoint, NewRequest};
use words::{FeedFault, LineFault, Reader, number};

// The most bytes that a line may have.
pub const LONGEST: usize = 80;

pub fn accept(line: &[u8]) -> Result<Command, FeedFault>
    ensures { result ≡ accepted line.now }
{
    Ok(decode(line)?)
}

pub fn decode(line: &[u8]) -> Result<Command, LineFault>
    ensures { result ≡ decoded line.now }
{
    if line.len() > LONGEST {
        return Err(LineFault::TooLong);
    }
    let mut reader = Reader::over(line);
    let (word, _) = reader.step().ok_or(LineFault::UnknownWord)?;
    let verb = Verb::from_name(word.text).ok_or(LineFault::UnknownWord)?;
    command(verb, reader)
}

// The command that the verb gives with the fields that are left.
fn command(verb: Verb, reader: Reader<'_>) -> Result<Command, LineFault>
    ensures { result ≡ command_of verb (unread reader.entry) }
{
    match verb {
        Verb::Party => {
            let [number, role, qualified, sanctioned] = fields::<4>(reader)?;
            Ok(Command::Party(NewParty {
                number,
                role,
                qualified,
                sanctioned,
            }))
        }
        Verb::Link => {
            let [supplier, shipper] = fields::<2>(reader)?;
            Ok(Command::Link(NewLink { supplier, shipper }))
        }
        Verb::Point => {
            let [number, fuel, domestic, status] = fields::<4>(reader)?;
            Ok(Command::Call(Call::Create(NewPoint {
                number,
                fuel,
                domestic,
                status,
            })))
        }
        Verb::Initial => {
            let [point, gainer, shipper, start] = fields::<4>(reader)?;
            Ok(Command::Call(Call::Initial(NewRequest {
                point,
                gainer,
                shipper,
                start,
            })))
        }
        Verb::Advance => {
            let [moment] = fields::<1>(reader)?;
            Ok(Command::Call(Call::Advance { moment }))
        }
        Verb::Take => {
            let [] = fields::<0>(reader)?;
            Ok(Command::Call(Call::Take))
        }
    }
}

// The numbers of exactly `N` fields.
fn fields<const N: usize>(mut reader: Reader<'_>) -> Result<[u64; N], LineFault>
    ensures { result ≡ fields_of N (unread reader.entry) }
{
    if !reader.has_left(N) {
        return Err(LineFault::WrongCount);
    }
    let mut numbers = [0u64; N];
    for (i, slot) in numbers.iter_mut().enumerate() {
        let (word, _) = reader.step().ok_or(LineFault::WrongCount)?;
        *slot = number(word.text, i + 1)?;
    }
    Ok(numbers)
}
