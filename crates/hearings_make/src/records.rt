// The records of a hearings file: how a description tells them, and their bytes in the file.
ghost use Rattle.std.specs.Prelude.{◌≡◌, ◌++◌, OnOk};
ghost use Rattle.hearings_make.specs.Bytes.{bytes_of};

use std::alloc::AllocError;
use std::fmt;
use std::num::ParseIntError;
use std::str::FromStr;

#[derive(Clone, Copy, Debug, PartialEq, Eq)]
pub(crate) enum Record {
    // the number of a house code
    Choose(u8),
    Heard { place: u8, letter: u8 },
    Struck { place: u8 },
    List { agreement: u8 },
    // a byte alone, for a file that is to be refused
    Byte(u8),
}

// Why a line tells no record.
#[derive(Clone, Copy, Debug, PartialEq, Eq)]
pub(crate) enum BadRecord {
    // its first word, or how many there are
    Words,
    // a word that is no number of a byte
    Number,
}

impl fmt::Display for BadRecord {
    fn fmt<W: fmt::Write>(&self, f: &mut fmt::Formatter<W>) -> fmt::Result {
        f.write_str(match self {
            BadRecord::Words =>
                "a record is: choose CODE, heard PLACE LETTER, struck PLACE, list AGREEMENT, or byte NUMBER",
            BadRecord::Number =>
                "a code is slab, header, brine or a number, and numbers are whole and below 256",
        })
    }
}

impl From<ParseIntError> for BadRecord {
    fn from(_: ParseIntError) -> BadRecord {
        BadRecord::Number
    }
}

// The number of a house code, from its name or the number itself.
fn read_code(word: &str) -> Result<u8, BadRecord> {
    match word {
        "slab" => Ok(1),
        "header" => Ok(2),
        "brine" => Ok(3),
        number => Ok(number.parse()?),
    }
}

impl FromStr for Record {
    type Err = BadRecord;

    fn from_str(told: &str) -> Result<Record, BadRecord> {
        let mut words = told.split_whitespace();
        match (words.next(), words.next(), words.next(), words.next()) {
            (Some("choose"), Some(code), None, None) => Ok(Record::Choose(read_code(code)?)),
            (Some("heard"), Some(place), Some(letter), None) => Ok(Record::Heard {
                place: place.parse()?,
                letter: letter.parse()?,
            }),
            (Some("struck"), Some(place), None, None) => Ok(Record::Struck {
                place: place.parse()?,
            }),
            (Some("list"), Some(agreement), None, None) => Ok(Record::List {
                agreement: agreement.parse()?,
            }),
            (Some("byte"), Some(number), None, None) => Ok(Record::Byte(number.parse()?)),
            _ => Err(BadRecord::Words),
        }
    }
}

impl Record {
    // Adds the record's bytes to a file.
    pub(crate) fn write(self, file: &mut Vec<u8>) -> Result<(), AllocError>
        ensures { OnOk result (file.new.items ≡ file.old.items ++ bytes_of self) }
    {
        match self {
            Record::Choose(code) => file.extend_from_slice(&[1, code]),
            Record::Heard { place, letter } => file.extend_from_slice(&[2, place, letter]),
            Record::Struck { place } => file.extend_from_slice(&[3, place]),
            Record::List { agreement } => file.extend_from_slice(&[4, agreement]),
            Record::Byte(number) => file.extend_from_slice(&[number]),
        }
    }
}
