// Choices of a house code.
ghost use Rattle.std.specs.Prelude.{◌≡◌};
ghost use Rattle.house_codes.specs.House.{house};
ghost use Rattle.hearings.specs.Writing.{Wrote};
ghost use Rattle.hearings.specs.Lines.{choice_line};
ghost use Rattle.hearings.specs.Text.{again};
ghost use Rattle.hearings.specs.Readers.{number_of, meaning_of, Chooses, Opens};

use crate::readers::Reader;
use crate::records::HouseRecord;
use crate::writing::Text;
use fault::Fault;
use house_codes::{brine_code, header_code, slab_code};

#[derive(Clone, Copy)]
pub(crate) enum Choice {
    Slab,
    Header,
    Brine,
}

impl TryFrom<u8> for Choice {
    type Error = Fault;

    ghost try_from_gives = { Chooses };

    fn try_from(number: u8) -> Result<Choice, Fault> {
        match number {
            1 => Ok(Choice::Slab),
            2 => Ok(Choice::Header),
            3 => Ok(Choice::Brine),
            _ => Err(Fault::Code),
        }
    }
}

impl Choice {
    // The number in the file; it stands beside those that `try_from` reads, which discriminants would say no plainer.
    pub(crate) fn number(self) -> u8
        ensures { result ≡ number_of self }
    {
        match self {
            Choice::Slab => 1,
            Choice::Header => 2,
            Choice::Brine => 3,
        }
    }

    // An empty record of the code.
    pub(crate) fn open(self) -> Reader
        ensures { Opens self result }
    {
        match self {
            Choice::Slab => Reader::Slab(HouseRecord::new(slab_code())),
            Choice::Header => Reader::Header(HouseRecord::new(header_code())),
            Choice::Brine => Reader::Brine(HouseRecord::new(brine_code())),
        }
    }

    // Prints what the code is.
    pub(crate) fn tell(self, text: &mut Text<'_>)
        ensures { Wrote text.old (choice_line (number_of self) (meaning_of self)) text.new }
    {
        let number = self.number();
        match self {
            Choice::Slab => text.push_choice(number, &slab_code()),
            Choice::Header => text.push_choice(number, &header_code()),
            Choice::Brine => text.push_choice(number, &brine_code()),
        }
    }
}

// Why a choice after a choice is refused.
pub(crate) fn refused_again(number: u8) -> Fault
    ensures { result ≡ again (house number) }
{
    match Choice::try_from(number) {
        Ok(_) => Fault::Chosen,
        Err(fault) => fault,
    }
}
