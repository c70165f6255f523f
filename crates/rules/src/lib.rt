// The answers of document 01 (docs/RULES.md), "Outcomes": each kind with its own data. Rows and columns count from 1.
#![tactic(auto)]

// The table of a bad entry.
#[derive(Clone, Copy)]
pub enum Table {
    Equations,
    Inequalities,
    Multipliers,
}

#[derive(Clone, Copy)]
pub enum Refusal {
    // 1: n, m or k out of range
    OutOfRange,
    // 2: a table's length is wrong
    WrongLength,
    // 3: the first bad entry, of table 0 (equations), 1 (inequalities) or 2 (multipliers)
    BadEntry {
        table: Table,
        row: usize,
        column: usize,
    },
    // 4: the row in hand, the steps completed
    TooLarge {
        row: usize,
        steps: usize,
    },
    // 5: a sum of this inequality is too large
    LargeSum {
        inequality: usize,
    },
    // 6: the text is not well formed; the place counts bytes from 0
    Malformed {
        place: usize,
    },
    // 7: the text is too long
    LongText,
}

#[derive(Clone, Copy)]
pub enum Outcome {
    Open { steps: usize },
    EquationConflict { row: usize, steps: usize },
    OneRowConflict { i: usize, steps: usize },
    TwoRowConflict { i: usize, j: usize, steps: usize },
    Refused(Refusal),
}

// What the reader finds in a text: the numbers of variables, equations and inequalities.
#[derive(Clone, Copy)]
pub struct System {
    pub n: usize,
    pub m: usize,
    pub k: usize,
}

// The four result tables that show the state of a run, as the caller lends them.
#[derive(Drop)]
pub struct StateTables<'a> {
    pub substitution: &'a mut [i64],
    pub marks: &'a mut [u8],
    pub way_back: &'a mut [i64],
    pub reasons: &'a mut [i64],
}

// The result tables of the inequalities: a tightened row for each, and the set of the equations that it used.
#[derive(Drop)]
pub struct RowTables<'a> {
    pub tightened: &'a mut [i64],
    pub used: &'a mut [u64],
}
