//! A backend that gives wrong answers, over another backend.

ghost use Rattle.std.specs.Prelude.{◌≡◌, length, All, IfOk};
ghost use Rattle.cj_model.specs.Database.Outcomes.{IsAsked};

use cj_backend::{Backend, BackendError, Counts, Snap};
use cj_model::{
    Answer, AnswerRows, Asked, Create, Db, Duplicate, ListOf, Name, NoMemory, Outcome, Select,
    Text, Value, Write,
};
use std::alloc::Global;

/// A backend that passes every call on to another one, and of whose contents contracts see nothing. Where it lies, it
/// adds 1 to each INTEGER of an answer, and the greatest one becomes the least.
///
/// So a test sees which backend gave an answer. Where memory is wanting for the changed rows, it gives the answer as
/// it is, since the other backend has counted it.
#[derive(Drop)]
pub struct Wrong<B: Backend> {
    alloc: Global,
    inner: B,
    lies: bool,
}

/// Copies a value, with 1 added to an INTEGER.
fn raised(alloc: Global, value: &Value) -> Result<Value, NoMemory> {
    match value {
        Value::Int(number) => Ok(Value::Int(number.wrapping_add(1))),
        Value::Text(text) => Ok(Value::Text(text.copy(alloc)?)),
    }
}

/// Copies a row, with 1 added to each INTEGER.
fn raised_row(alloc: Global, row: &[Value]) -> Result<ListOf<Value>, NoMemory>
    ensures { IfOk result (λ made. length made ≡ length row.now) }
{
    let mut made = Vec::with_capacity(alloc, row.len())?;
    for value in row {
        made.push(raised(alloc, value)?)?;
    }
    Ok(ListOf::from_vec(made))
}

/// Copies the rows of an answer with so many columns, with 1 added to each INTEGER.
fn raised_rows(alloc: Global, columns: usize, rows: &AnswerRows) -> Result<AnswerRows, NoMemory>
    requires { All (λ row. length row ≡ columns) rows.now }
    ensures { IfOk result (All (λ row. length row ≡ columns)) }
{
    let mut made = AnswerRows::new(alloc);
    for row in rows.iter() {
        made.push(raised_row(alloc, row)?)?;
    }
    Ok(made)
}

/// Adds 1 to each INTEGER of an answer.
fn raised_answer(alloc: Global, asked: Asked) -> Asked
    requires { IsAsked asked }
    ensures { IsAsked result }
{
    match asked {
        Asked::Refused(refusal) => Asked::Refused(refusal),
        Asked::Rows(Answer { columns, rows }) => {
            match raised_rows(alloc, columns.len(), &rows) {
                Ok(raised) => Asked::Rows(Answer {
                    columns,
                    rows: raised,
                }),
                Err(_) => Asked::Rows(Answer { columns, rows }),
            }
        }
    }
}

/// The answer as it is, or, of who lies, with 1 added to each INTEGER.
fn said(alloc: Global, lies: bool, asked: Asked) -> Asked
    requires { IsAsked asked }
    ensures { IsAsked result }
{
    if lies {
        raised_answer(alloc, asked)
    } else {
        asked
    }
}

/// A snapshot of which contracts see nothing, and which lies where its backend does.
#[derive(Drop)]
pub struct WrongSnap<S: Snap> {
    alloc: Global,
    inner: S,
    lies: bool,
}

impl<S: Snap> Snap for WrongSnap<S> {
    ghost use Rattle.cj_flaky.specs.FlakyBackends.{nothing_told};

    ghost shows = { λ _. nothing_told };

    fn ask(&mut self, tx: u64, select: &Select) -> Result<Asked, NoMemory> {
        match self.inner.ask(tx, select) {
            Ok(asked) => Ok(said(self.alloc, self.lies, asked)),
            Err(error) => Err(error),
        }
    }
}

impl<B: Backend> Wrong<B> {
    /// Wraps a backend, and says whether it lies.
    pub fn new(alloc: Global, backend: B, lies: bool) -> Wrong<B>
        ensures { (result.inner ≡ backend) × (result.lies ≡ lies) }
    {
        Wrong {
            alloc,
            inner: backend,
            lies,
        }
    }
}

impl<B: Backend> Backend for Wrong<B> {
    ghost use Rattle.std.specs.Prelude.{false};
    ghost use Rattle.cj_flaky.specs.FlakyBackends.{nothing_told};

    type Snap = WrongSnap<B::Snap>;

    ghost tells = { false };

    ghost told = { λ _. nothing_told };

    ghost faults = { λ w. B.faults w.inner };

    ghost asks = { λ w. B.asks w.inner };

    ghost begun = { λ w. B.begun w.inner };

    ghost login = { λ w. B.login w.inner };

    ghost can_be_armed = { B.can_be_armed };

    ghost arming = { λ w. B.arming w.inner };

    ghost snaps = { λ w. B.snaps w.inner };

    fn begin(&mut self, user: &Text, tx: u64) -> Result<(), BackendError> {
        self.inner.begin(user, tx)
    }

    fn write(&mut self, user: &Text, tx: u64, write: &Write) -> Result<Outcome, BackendError> {
        self.inner.write(user, tx, write)
    }

    fn create(&mut self, user: &Text, create: &Create) -> Result<Outcome, BackendError> {
        self.inner.create(user, create)
    }

    fn drop_table(&mut self, user: &Text, table: &Name) -> Result<Outcome, BackendError> {
        self.inner.drop_table(user, table)
    }

    fn commit(&mut self, user: &Text, tx: u64) -> Result<(), BackendError> {
        self.inner.commit(user, tx)
    }

    fn abort(&mut self, user: &Text, tx: u64) -> Result<(), BackendError> {
        self.inner.abort(user, tx)
    }

    fn ask(&mut self, user: &Text, tx: u64, select: &Select) -> Result<Asked, BackendError> {
        match self.inner.ask(user, tx, select) {
            Ok(asked) => Ok(said(self.alloc, self.lies, asked)),
            Err(error) => Err(error),
        }
    }

    fn snapshot(&mut self, user: &Text) -> Result<Option<WrongSnap<B::Snap>>, BackendError> {
        match self.inner.snapshot(user) {
            Ok(Some(inner)) => Ok(Some(WrongSnap {
                alloc: self.alloc,
                inner,
                lies: self.lies,
            })),
            Ok(None) => Ok(None),
            Err(error) => Err(error),
        }
    }

    fn contents(&mut self) -> Result<Db, BackendError> {
        self.inner.contents()
    }

    fn load(&mut self, db: Db) -> Result<(), BackendError> {
        self.inner.load(db)
    }

    fn counts(&self) -> Counts {
        self.inner.counts()
    }

    fn login(&self) -> Option<&Text> {
        self.inner.login()
    }

    fn arm(&mut self) {
        self.inner.arm();
    }
}
