// The PolyLib text of document 01, "Text in and out": what the reader keeps from byte to byte.
#![tactic(auto)]

// The classes that a byte can have.
#[derive(Clone, Copy)]
pub enum Class {
    Digit(u8),
    Minus,
    Blank,
    CarriageReturn,
    LineFeed,
    CommentMark,
    Other,
}

// Where in its line the reader stands.
#[derive(Clone, Copy, PartialEq, Eq)]
pub enum Phase {
    // before a line's first byte
    Start,
    // after blanks that begin a line
    Lead,
    // after a row's mark
    Marked,
    // after a number's minus
    Signed,
    // in a number
    Digits,
    // after blanks behind a number or a mark
    Gap,
    // after the carriage return that ends a line, before its line feed
    Return,
    // in a comment
    Comment,
    // no well-formed text begins like this
    Dead,
}

#[derive(Clone, Copy)]
pub struct Machine {
    pub phase: Phase,
    // whether the header line is read
    pub body: bool,
    // the row lines to come
    pub rows: usize,
    pub columns: usize,
    // the numbers of this line that are yet to begin
    pub left: usize,
    // the number in hand: how many digits, its size, whether it has a minus
    pub digits: usize,
    pub value: usize,
    pub negative: bool,
    // whether the row in hand is an inequality
    pub inequality: bool,
    // the rows of each kind that have begun
    pub equations: usize,
    pub inequalities: usize,
}
