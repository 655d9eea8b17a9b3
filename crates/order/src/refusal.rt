// Why a call refuses: a reason for each question that can say no. What is told outside is the question's number.
ghost use Rattle.std.specs.Prelude.{◌≡◌};
ghost use Rattle.order.specs.Refusals.{number_of};

#[derive(Clone, Copy, PartialEq, Eq)]
pub enum Refusal {
    RecordLength,
    LinkKind,
    GeneratorCount,
    Memory,
    WordLength,
    CheckDegree,
    Threshold,
    GeneratorRange,
    GeneratorEnds,
    Room,
    CheckPolynomial,
    WordTooLong,
    TooManyEvents,
    TooManyPaths,
    SharedFactor,
    LengthList,
}

impl From<Refusal> for u64 {
    ghost from_gives = { λ refusal number. number ≡ number_of refusal };

    fn from(refusal: Refusal) -> u64 {
        match refusal {
            Refusal::RecordLength => 1,
            Refusal::LinkKind => 2,
            Refusal::GeneratorCount => 3,
            Refusal::Memory => 4,
            Refusal::WordLength => 5,
            Refusal::CheckDegree => 6,
            Refusal::Threshold => 7,
            Refusal::GeneratorRange => 8,
            Refusal::GeneratorEnds => 9,
            Refusal::Room => 10,
            Refusal::CheckPolynomial => 11,
            Refusal::WordTooLong => 12,
            Refusal::TooManyEvents => 13,
            Refusal::TooManyPaths => 14,
            Refusal::SharedFactor => 16,
            Refusal::LengthList => 17,
        }
    }
}
