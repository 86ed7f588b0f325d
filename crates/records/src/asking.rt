ghost use Rattle.std.specs.Prelude.{◌≡◌, ◌+◌, [], ◌∷◌, map, nat_le};
ghost use Rattle.checks.specs.Verdicts.{ask};
ghost use Rattle.plain.specs.Forms.{form, tags_of};
ghost use Rattle.plain.specs.Sheets.{total};
ghost use Rattle.plain.specs.Refusals.{first_no, answered};
ghost use Rattle.plain.specs.Questions.{is_tag, is_row, is_range, all_tags, reason_of, holds, answer};
ghost use Rattle.records.specs.Views.{outline_of, refusal_by};

use crate::records::{MOST_SHEETS, Records};
use checks::verdict::ask;
use plain::call::Call;
use plain::question::Question;
use plain::refusal::Refusal;

const LARGEST_TAG: u32 = 9_999;

fn is_tag(tag: u32) -> bool
    ensures value { result ≡ is_tag tag }
{
    (1..=LARGEST_TAG).contains(&tag)
}

// Whether a row is one of so many.
fn is_row(rows: u32, row: u32) -> bool
    ensures value { result ≡ is_row rows row }
{
    (1..=rows).contains(&row)
}

// Whether a row may be put in before or after the rows that stand. No range: one row more may not fit 32 bits.
fn is_gap(rows: u32, row: u32) -> bool
    ensures value { result ≡ is_row (rows + 1) row }
{
    1 <= row && row - 1 <= rows
}

fn is_range(rows: u32, first: u32, last: u32) -> bool
    ensures value { result ≡ is_range rows first last }
{
    is_gap(rows, first) && (first - 1..=rows).contains(&last)
}

// Whether each tag that a call names is one.
fn are_tags(call: Call) -> bool
    ensures value { result ≡ all_tags (tags_of (form call).effect (form call).tag) }
{
    match call {
        // The new tag first: in the other order the compiler tests the tag of every other call twice.
        Call::Copy { tag, new } | Call::Rename { tag, new } => is_tag(new) && is_tag(tag),
        Call::Open { tag }
        | Call::Close { tag }
        | Call::Insert { tag, .. }
        | Call::Strike { tag, .. }
        | Call::Replace { tag, .. }
        | Call::Whole { tag }
        | Call::Range { tag, .. }
        | Call::Pause { tag }
        | Call::Recalculate { tag } => is_tag(tag),
    }
}

impl Records {
    // Whether a call is accepted; else by the first question that it answers no. It looks at the records alone.
    pub fn admit(&self, call: Call) -> Result<(), Refusal>
        ensures value { result ≡ answered (refusal_by self.now call) }
    {
        ask(are_tags(call), Refusal::TagOutOfRange)?;
        self.ask_sheets(call)
    }

    // What a call asks of the sheets, a row for each.
    fn ask_sheets(&self, call: Call) -> Result<(), Refusal>
        ensures value { result ≡ answered (first_no (map (answer self.now.capacity (outline_of self.now)) (form call).asks)) }
    {
        match call {
            Call::Open { tag } => {
                self.ask(Question::Unused(tag))?;
                self.ask(Question::FewerThanEight)
            }
            Call::Copy { tag, new } => {
                self.ask(Question::Standing(tag))?;
                self.ask(Question::Unused(new))?;
                self.ask(Question::FewerThanEight)?;
                self.ask(Question::Settled(tag))?;
                self.ask(Question::RoomForCopy(tag))
            }
            Call::Rename { tag, new } => {
                self.ask(Question::Standing(tag))?;
                self.ask(Question::Unused(new))?;
                self.ask(Question::Settled(tag))
            }
            Call::Close { tag } | Call::Whole { tag } | Call::Pause { tag } => {
                self.ask(Question::Standing(tag))?;
                self.ask(Question::Settled(tag))
            }
            Call::Insert { tag, row, .. } => {
                self.ask(Question::Standing(tag))?;
                self.ask(Question::GapIn(tag, row))?;
                self.ask(Question::RoomForOne)
            }
            Call::Strike { tag, row } | Call::Replace { tag, row, .. } => {
                self.ask(Question::Standing(tag))?;
                self.ask(Question::RowIn(tag, row))
            }
            Call::Range { tag, first, last } => {
                self.ask(Question::Standing(tag))?;
                self.ask(Question::Settled(tag))?;
                self.ask(Question::RowsIn(tag, first, last))
            }
            Call::Recalculate { tag } => {
                self.ask(Question::Standing(tag))?;
                self.ask(Question::Paused(tag))
            }
        }
    }

    // One question; its refusal where it is answered no. In line, so that each row runs its own cases of `holds` alone.
    #[inline(always)]
    fn ask(&self, question: Question) -> Result<(), Refusal>
        ensures value { result ≡ ask (holds self.now.capacity (outline_of self.now) question) (reason_of question) }
    {
        ask(self.holds(question), question.refusal())
    }

    // What the sheets answer to a question.
    #[inline(always)]
    fn holds(&self, question: Question) -> bool
        ensures value { result ≡ holds self.now.capacity (outline_of self.now) question }
    {
        match question {
            Question::Standing(tag) => self.has(tag),
            Question::Unused(tag) => !self.has(tag),
            Question::FewerThanEight => self.sheet_count() < MOST_SHEETS,
            Question::Settled(tag) => self.is_settled(tag),
            Question::Paused(tag) => self.is_paused(tag),
            Question::RowIn(tag, row) => is_row(self.row_count(tag), row),
            Question::GapIn(tag, row) => is_gap(self.row_count(tag), row),
            Question::RowsIn(tag, first, last) => is_range(self.row_count(tag), first, last),
            Question::RoomForOne => self.fits(1),
            Question::RoomForCopy(tag) => self.fits(self.row_count(tag)),
        }
    }

    // Whether so many rows more fit the capacity.
    fn fits(&self, more: u32) -> bool
        ensures value { result ≡ nat_le (total (outline_of self.now) + more) self.now.capacity }
    {
        let room = u32::from(self.capacity).saturating_sub(self.total());
        more <= room
    }
}
