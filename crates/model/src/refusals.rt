// Why a record, a sheet or a question is refused, and the numbers that papers 01 and 02 give the reasons.
ghost use Rattle.std.specs.Prelude.{◌≡◌};
ghost use Rattle.model.specs.Refusals.{number_of};
ghost use Rattle.model.specs.Records.{refusal_for, refused_for};

use knapsack::Refusal;

#[derive(Clone, Copy, PartialEq, Eq)]
pub enum Reason {
    Overlong,
    Form,
    Count,
    Figure,
    ItemNumber,
    Amounts,
    Amount,
    PairNumbers,
    PairItems,
    ShortBuffer,
    HeadingWord,
    Number,
    NamedItem,
    BlankItem,
    FullRecord,
    MissingItem,
    OnlyItem,
    WeightRange,
    RangedItem,
}

impl Reason {
    // The number that is told.
    pub fn number(self) -> u64
        ensures { result ≡ number_of self }
    {
        match self {
            Reason::Overlong => 1,
            Reason::Form => 2,
            Reason::Count => 3,
            Reason::Figure => 4,
            Reason::ItemNumber => 5,
            Reason::Amounts => 7,
            Reason::Amount => 8,
            Reason::PairNumbers => 9,
            Reason::PairItems => 10,
            Reason::ShortBuffer => 11,
            Reason::HeadingWord => 12,
            Reason::Number => 13,
            Reason::NamedItem => 14,
            Reason::BlankItem => 15,
            Reason::FullRecord => 16,
            Reason::MissingItem => 17,
            Reason::OnlyItem => 18,
            Reason::WeightRange => 19,
            Reason::RangedItem => 20,
        }
    }

    // The refusal of what is no sheet, so that there is no line.
    pub fn refusal(self) -> Refusal
        ensures { result ≡ refusal_for self }
    {
        crate::refusal_of(self.number())
    }

    pub fn refuse_if(self, test: bool) -> Result<(), Refusal>
        ensures { result ≡ refused_for test self }
    {
        crate::refused_if(test, self.number())
    }
}
