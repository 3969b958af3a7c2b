// A table of hard periodic tasks: its figures, and when it is well formed.

#![tactic(auto)]

pub mod formed;

ghost use Rattle.std.specs.Prelude.{◌≡◌, ℕ, cond, min, replicate};
ghost use Rattle.seq.specs.Places.{at, below};
ghost use Rattle.table.specs.Verdicts.{number, row, said_of, refuse, granted};
ghost use Rattle.table.specs.Formed.{tables_of};
ghost use Rattle.table.specs.Form.{in_order, all_zero, sound, unsound_row, falling_row, count_verdict, rows_verdict, periods_verdict, form_of};

use formed::Formed;

// Rows in priority order: C slots in each period of T, by the deadline D. Those past n are zero. Three arrays, and no rows: C lends them so.
#[repr(C)]
#[derive(Clone, Copy)]
pub struct Table {
    pub n: usize,
    pub c: [u16; 16],
    pub t: [u16; 16],
    pub d: [u16; 16],
}

#[derive(Clone, Copy)]
pub struct Row {
    pub c: u16,
    pub t: u16,
    pub d: u16,
}

// Why a call is refused, in the order of document 01's numbers. Three name a row, from 1 on.
#[derive(Clone, Copy, PartialEq, Eq)]
pub enum Refusal {
    RecordShort,
    VersionUnknown,
    LengthWrong,
    RowCount,
    RowUnsound(usize),
    PeriodFalls(usize),
    RowLacks(usize),
    SizeZero,
    QueueFull,
    RunOver,
    StateIllegal,
    BufferShort,
}

pub type Verdict = Result<(), Refusal>;

// Methods, and no From: `u8::from(why)` would not say that it is the number.
impl Refusal {
    pub fn number(self) -> u8
        ensures { result ≡ number self }
    {
        match self {
            Refusal::RecordShort => 1,
            Refusal::VersionUnknown => 2,
            Refusal::LengthWrong => 3,
            Refusal::RowCount => 4,
            Refusal::RowUnsound(_) => 5,
            Refusal::PeriodFalls(_) => 6,
            Refusal::RowLacks(_) => 7,
            Refusal::SizeZero => 8,
            Refusal::QueueFull => 9,
            Refusal::RunOver => 10,
            Refusal::StateIllegal => 11,
            Refusal::BufferShort => 12,
        }
    }

    // The row that it names; 0 for none, as document 01's table has it, so no Option.
    pub fn row(self) -> usize
        ensures { result ≡ row self }
    {
        match self {
            Refusal::RowUnsound(row) | Refusal::PeriodFalls(row) | Refusal::RowLacks(row) => row,
            _ => 0,
        }
    }
}

// Why something is refused, said in numbers: which reason, and the row that it names or 0. Document 01's reasons are of this kind, and so are
// any two numbers.
pub trait Reason {
    ghost said_number: { Self → ℕ };

    ghost said_row: { Self → ℕ };

    fn said_number(self) -> u8
        ensures { result ≡ said_number self };

    fn said_row(self) -> usize
        ensures { result ≡ said_row self };
}

impl Reason for Refusal {
    ghost said_number = { number };

    ghost said_row = { row };

    fn said_number(self) -> u8 {
        self.number()
    }

    fn said_row(self) -> usize {
        self.row()
    }
}

impl Reason for (u8, usize) {
    ghost said_number = { λ told. told.0 };

    ghost said_row = { λ told. told.1 };

    fn said_number(self) -> u8 {
        self.0
    }

    fn said_row(self) -> usize {
        self.1
    }
}

pub fn number_of<E: Reason>(v: Result<(), E>) -> u8
    ensures { result ≡ said_of E.said_number v }
{
    match v {
        Ok(()) => 0,
        Err(why) => why.said_number(),
    }
}

pub fn row_named<E: Reason>(v: Result<(), E>) -> usize
    ensures { result ≡ said_of E.said_row v }
{
    match v {
        Ok(()) => 0,
        Err(why) => why.said_row(),
    }
}

// Refused for that reason where told, else taken.
pub fn refuse<E: Drop>(b: bool, why: E) -> Result<(), E>
    ensures { result ≡ refuse b why }
{
    if b {
        return Err(why);
    }
    Ok(())
}

impl Row {
    fn in_order(self) -> bool
        ensures { result ≡ in_order self.c self.t self.d }
    {
        (1 <= self.c) & (self.c <= self.d) & (self.d <= self.t) & (self.t <= 4096)
    }

    // Figure by figure, as document 01 and `in_order` have it.
    fn all_zero(self) -> bool
        ensures { result ≡ all_zero self.c self.t self.d }
    {
        (self.c == 0) & (self.t == 0) & (self.d == 0)
    }

    fn is_sound(self, inside: bool) -> bool
        ensures { result ≡ cond inside (in_order self.c self.t self.d) (all_zero self.c self.t self.d) }
    {
        if inside {
            self.in_order()
        } else {
            self.all_zero()
        }
    }
}

#[tactic(auto, unfolding(crate::specs::Form::count_verdict))]
fn count_verdict(n: usize) -> Verdict
    ensures { result ≡ count_verdict n }
{
    refuse((n == 0) | (16 < n), Refusal::RowCount)
}

impl Table {
    // So many rows, all of zeros.
    pub fn zeros(n: usize) -> Table
        ensures { result ≡ record { n = n; c = replicate 16 0; t = replicate 16 0; d = replicate 16 0 } }
    {
        Table {
            n,
            c: [0; 16],
            t: [0; 16],
            d: [0; 16],
        }
    }

    // Row i, counted from 0; zeros where there is no such place.
    pub fn row(&self, i: usize) -> Row
        ensures { result ≡ record { c = at self.now.c i; t = at self.now.t i; d = at self.now.d i } }
    {
        Row {
            c: self.c.get(i).copied().unwrap_or(0),
            t: self.t.get(i).copied().unwrap_or(0),
            d: self.d.get(i).copied().unwrap_or(0),
        }
    }

    #[tactic(auto, unfolding(crate::specs::Form::sound))]
    fn is_sound(&self, i: usize) -> bool
        ensures { result ≡ sound self.now.n self.now.c self.now.t self.now.d i }
    {
        self.row(i).is_sound(i < self.n)
    }

    // The first row that is not as it should be. A loop, and no `find`: what `find` says of its closure's calls did not lead to `unsound_row`.
    fn unsound_row(&self) -> Option<usize>
        ensures { result ≡ below 16 (unsound_row self.now.n self.now.c self.now.t self.now.d) }
    {
        for i in 0..16 {
            let ok = self.is_sound(i);
            if !ok {
                return Some(i);
            }
        }
        None
    }

    // The first row whose period is below the one before. A loop, as above.
    fn falling_row(&self) -> Option<usize>
        ensures { result ≡ below (min self.now.n 16) (falling_row self.now.n self.now.t) }
    {
        for i in 0..self.n.min(16) {
            let before = i.saturating_sub(1);
            if self.t[i] < self.t[before] {
                return Some(i);
            }
        }
        None
    }

    #[tactic(auto, unfolding(crate::specs::Form::rows_verdict), using(crate::proofs::WellFormed::unsound_most))]
    fn rows_verdict(&self) -> Verdict
        ensures { result ≡ rows_verdict self.now.n self.now.c self.now.t self.now.d }
    {
        match self.unsound_row() {
            Some(i) => Err(Refusal::RowUnsound(i + 1)),
            None => Ok(()),
        }
    }

    #[tactic(auto, unfolding(crate::specs::Form::periods_verdict), using(crate::proofs::WellFormed::falling_most))]
    fn periods_verdict(&self) -> Verdict
        ensures { result ≡ periods_verdict self.now.n self.now.t }
    {
        match self.falling_row() {
            Some(i) => Err(Refusal::PeriodFalls(i + 1)),
            None => Ok(()),
        }
    }

    // Refusals 4, 5 and 6.
    #[tactic(auto, unfolding(crate::specs::Form::form_verdict))]
    pub fn form(&self) -> Verdict
        ensures { result ≡ form_of self.now }
    {
        count_verdict(self.n)?;
        self.rows_verdict()?;
        self.periods_verdict()
    }

    // The table as one that is well formed, or the first of 4, 5 and 6.
    #[tactic(auto, using(crate::proofs::WellFormed::taken_some, crate::proofs::WellFormed::taken_few))]
    pub fn formed(self) -> Result<Formed, Refusal>
        ensures { tables_of result ≡ granted (form_of self) self }
    {
        self.form()?;
        Ok(Formed { table: self })
    }
}
