/// What a rule says of a place: it is kept in every frame, or broken in some frame.
#[derive(Clone, Copy, PartialEq, Eq, Debug)]
pub enum Judgement {
    Kept,
    Broken,
}
