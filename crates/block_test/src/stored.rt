// The blocks of the stored input, repaired; tests/vectors/rattle.py makes stdin and stdout.
//
// A line in: the setting and the level, a digit and a space each, then the block's symbols, two digits each, ff for an unknown one. All digits are hexadecimal.
// A line out: the code block, two digits a symbol, or `none`; then a digit for each symbol, 1 where it is marked.
ghost use Rattle.std.specs.Prelude.{◌≡◌, ◌≤◌, length};

use super::Output;
use code::SettingNumber;
use std::io::{Error, ErrorKind, Read, Write};
use tables::combination::Combination;
use tables::{LONGEST_BLOCK, Tables};

// What stands between two words, or after the last.
fn skip_byte(rt: &HostRuntime) -> Result<(), Error> {
    let mut byte = [0u8; 1];
    rt.stdin().read_exact(&mut byte)
}

// The value of a digit.
fn read_digit(rt: &HostRuntime) -> Result<u8, Error> {
    let mut digit = [0u8; 1];
    rt.stdin().read_exact(&mut digit)?;
    match char::from(digit[0]).to_digit(16) {
        Some(value) => Ok(value as u8),
        None => Err(Error::from(ErrorKind::InvalidData)),
    }
}

// A symbol below q, or the mark of an unknown one.
fn read_symbol(rt: &HostRuntime, q: usize) -> Result<u8, Error> {
    let symbol = read_digit(rt)? << 4 | read_digit(rt)?;
    if q <= usize::from(symbol) && symbol != u8::MAX {
        return Err(Error::from(ErrorKind::InvalidData));
    }
    Ok(symbol)
}

// Repairs a block, and writes what came of it.
fn show_repair(rt: &HostRuntime, tables: &Tables, block: &[u8], l: usize) -> Result<(), Error>
    requires { (length block.now ≡ tables.now.setting.n) × (l ≤ tables.now.setting.m) }
{
    let n = tables.setting.n;
    // Ones, so that marks that are not cleared show.
    let mut room = [1u8; LONGEST_BLOCK];
    let marks = &mut room[..n];
    match block::repair(tables, block, l, marks) {
        Some(information) => {
            let repaired = Combination {
                tables,
                information: &information,
                l,
            };
            for i in 0..n {
                write!(Output::new(rt), "{:02x}", repaired.symbol(i))?;
            }
        }
        None => write!(Output::new(rt), "none")?,
    }
    write!(Output::new(rt), " ")?;
    for mark in marks {
        write!(Output::new(rt), "{mark}")?;
    }
    writeln!(Output::new(rt))
}

// One line; an error where the input ends or a line has not this form.
fn turn(rt: &HostRuntime) -> Result<(), Error> {
    let Ok(number) = SettingNumber::try_from(u64::from(read_digit(rt)?)) else {
        return Err(Error::from(ErrorKind::InvalidData));
    };
    skip_byte(rt)?;
    let l = usize::from(read_digit(rt)?);
    skip_byte(rt)?;
    let tables = Tables::new(number);
    let p = tables.setting;
    if p.m < l {
        return Err(Error::from(ErrorKind::InvalidData));
    }
    let mut room = [0u8; LONGEST_BLOCK];
    let block = &mut room[..p.n];
    for symbol in block.iter_mut() {
        *symbol = read_symbol(rt, p.q)?;
    }
    skip_byte(rt)?;
    show_repair(rt, &tables, block, l)
}

// All lines. Nothing says that an input ends, so they are counted up to a number that no run reaches.
pub(crate) fn repair_all(rt: &HostRuntime) {
    for _ in 0..1000000 {
        if turn(rt).is_err() {
            return;
        }
    }
}
