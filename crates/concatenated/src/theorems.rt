// What holds of the definitions themselves.
ghost use Rattle.concatenated.specs.Reaching.{LawfulOverLawful, OutByParts, ReachByParts};

// A concatenation of lawful codes is lawful, and it is out of reach just where a block is for the inner code, or the lifted sheet for the outer code. Answers nothing of use: its contract is the theorem.
pub fn concatenations_stand() -> u8
    ensures lawful { LawfulOverLawful }
    ensures verdict { OutByParts }
    ensures refused { ReachByParts }
{
    0
}
