//! The merge of three lockfiles by packages.

ghost use Rattle.std.specs.Prelude.{◌≡◌, ◌++◌, IfErr, IfOk, string_bytes};
ghost use Rattle.cargo_lock_c.specs.declared.refusal.Refusal.TheVariants.{NoMemory};
ghost use Rattle.cargo_lock_c.specs.Merges.{IsHandedOutWith, IsMergeAnswered, IsMergeText};
ghost use Rattle.cargo_lock_c.specs.Merges.{IsTextAbout, IsTextAboutError, IsTextOfMerge};
ghost use Rattle.cargo_lock_merge.specs.Comments.{comments_line};
ghost use Rattle.cargo_lock_merge.specs.Lines.{remark_lines};
ghost use Rattle.cargo_lock_c.specs.Merges.{LacksMerge, asked_text, refused_role};
ghost use Rattle.cargo_lock_c.specs.Merges.{status_with};

use crate::handing::hand_out;
use crate::refusal::{DONE, Refusal};
use crate::three::read_three;
use cargo_lock_merge::MergeInputs;
use cargo_lock_merge::comments::MergedComments;
use cargo_lock_merge::lockfiles::{LockfileMerge, MergeError};
use cargo_lock_merge::notice::Remarks;
use cargo_lock_merge_core::triple::Role;
use std::alloc::Global;

/// What is asked of a merge.
#[derive(Clone, Copy)]
enum Part {
    /// Its text.
    Text,

    /// The lines of what it reports: versions, alarms and moved references.
    Moved,
}

/// How a merge ends.
#[derive(Clone, Copy)]
enum Ending {
    /// The lockfiles are merged.
    Merged,

    /// The sides are in conflict.
    InConflict,

    /// The lockfile with this part cannot be merged.
    Refused(Role),
}

impl Ending {
    /// The number that is returned to the caller.
    fn status(self) -> u32
        ensures { result ≡ status_with self }
    {
        match self {
            Ending::Merged => DONE,
            Ending::InConflict => 15,
            Ending::Refused(Role::Base) => 16,
            Ending::Refused(Role::Ours) => 17,
            Ending::Refused(Role::Theirs) => 18,
        }
    }
}

/// How a merge ends, and the text about it.
#[derive(Drop)]
struct Answer {
    ending: Ending,
    text: String,
}

/// The text of the merge of two lockfiles over their base, as `cargo-lock merge` prints it. An
/// empty base is a lockfile without packages. The status is 0 if the lockfiles are merged, and the
/// text is the merged one. It is 15 if the sides are in conflict, and the text is a line for each
/// conflict. It is 16, 17 or 18 if the base, ours or theirs cannot be merged, and the text is the
/// line that says why. The texts are read in their order: 1 and 2 are about the base, 10 and 11
/// about ours, and 19 and 20 about theirs.
#[unsafe(no_mangle)]
pub extern "C" fn cargo_lock_merge(
    alloc: Global,
    base: &[u8],
    ours: &[u8],
    theirs: &[u8],
    out: &mut [u8],
    length: &mut usize,
) -> u32
    ensures { IsMergeAnswered Part.Text base.now ours.now theirs.now result out.old out.new
        length.old length.new }
{
    match read_and_merge(alloc, base, ours, theirs, Part::Text) {
        Ok(answer) => hand_out_answer(&answer, out, length),
        Err(refusal) => refusal.status(),
    }
}

/// What the merge of two lockfiles over their base reports: a line for each, as `cargo-lock merge`
/// prints it. The statuses are those of `cargo_lock_merge`, with its texts where
/// there is no merge.
#[unsafe(no_mangle)]
pub extern "C" fn cargo_lock_merge_moved(
    alloc: Global,
    base: &[u8],
    ours: &[u8],
    theirs: &[u8],
    out: &mut [u8],
    length: &mut usize,
) -> u32
    ensures { IsMergeAnswered Part.Moved base.now ours.now theirs.now result out.old out.new
        length.old length.new }
{
    match read_and_merge(alloc, base, ours, theirs, Part::Moved) {
        Ok(answer) => hand_out_answer(&answer, out, length),
        Err(refusal) => refusal.status(),
    }
}

/// Copies a text to the front of the caller's buffer, and sets its length. The status is that of
/// the ending. If the buffer is too short, nothing is copied.
fn hand_out_answer(answer: &Answer, out: &mut [u8], length: &mut usize) -> u32
    ensures { IsHandedOutWith answer.now.ending (string_bytes answer.now.text) result out.old
        out.new length.old length.new }
{
    let handed = hand_out(answer.text.as_bytes(), out, length);
    if handed == DONE {
        answer.ending.status()
    } else {
        handed
    }
}

/// How the merge of the lockfiles of three texts' bytes ends, and the text about it.
fn read_and_merge(
    alloc: Global,
    base: &[u8],
    ours: &[u8],
    theirs: &[u8],
    part: Part,
) -> Result<Answer, Refusal>
    ensures ok { IfOk result (λ answer. IsMergeText part base.now ours.now theirs.now answer.ending
        (string_bytes answer.text)) }
    ensures err { IfErr result (LacksMerge base.now ours.now theirs.now) }
{
    let inputs = read_three(alloc, base, ours, theirs)?;
    let answer = answer_of(alloc, &inputs, inputs.comments(), part)?;
    Ok(answer)
}

/// How the merge of three lockfiles ends, and the text about it.
fn answer_of(
    alloc: Global,
    inputs: &MergeInputs,
    comments: MergedComments<'_>,
    part: Part,
) -> Result<Answer, Refusal>
    ensures ok { IfOk result (λ answer. IsTextOfMerge part comments.entry inputs.now answer.ending
        (string_bytes answer.text)) }
    ensures err { IfErr result (λ refusal. refusal ≡ NoMemory) }
{
    match inputs.merge(alloc, comments) {
        Ok(merge) => merge_answer(alloc, merge, comments, part),
        Err(error) => error_answer(alloc, error),
    }
}

/// The text about a merge of lockfiles.
fn merge_answer(
    alloc: Global,
    merge: LockfileMerge<'_>,
    comments: MergedComments<'_>,
    part: Part,
) -> Result<Answer, Refusal>
    ensures ok { IfOk result (λ answer. IsTextAbout part comments.entry merge.entry answer.ending
        (string_bytes answer.text)) }
    ensures err { IfErr result (λ refusal. refusal ≡ NoMemory) }
{
    match merge {
        LockfileMerge::Merged(_, text, remarks) => Ok(Answer {
            ending: Ending::Merged,
            text: part_text(alloc, part, text, comments, &remarks)?,
        }),
        LockfileMerge::InConflict(conflicts) => Ok(Answer {
            ending: Ending::InConflict,
            text: format!(in alloc; "{conflicts}")?,
        }),
    }
}

/// What is asked of a merge with this text, which reports this.
fn part_text(
    alloc: Global,
    part: Part,
    text: String,
    comments: MergedComments<'_>,
    remarks: &Remarks<'_>,
) -> Result<String, Refusal>
    ensures ok { IfOk result (λ asked. string_bytes asked
        ≡ asked_text part comments.entry (string_bytes text) remarks.now) }
    ensures err { IfErr result (λ refusal. refusal ≡ NoMemory) }
{
    match part {
        Part::Text => Ok(text),
        Part::Moved => moved_text(alloc, comments, remarks),
    }
}

/// The lines of what a merge reports.
fn moved_text(
    alloc: Global,
    comments: MergedComments<'_>,
    remarks: &Remarks<'_>,
) -> Result<String, Refusal>
    ensures ok { IfOk result (λ lines. string_bytes lines
        ≡ comments_line comments.entry ++ remark_lines remarks.now) }
    ensures err { IfErr result (λ refusal. refusal ≡ NoMemory) }
{
    let mut lines = String::from_str(alloc, comments.line())?;
    lines.push_str(remarks.lines(alloc)?.as_str())?;
    Ok(lines)
}

/// The text about why a lockfile cannot be merged.
fn error_answer(alloc: Global, error: MergeError<'_>) -> Result<Answer, Refusal>
    ensures ok { IfOk result (λ answer. IsTextAboutError error.entry answer.ending
        (string_bytes answer.text)) }
    ensures err { IfErr result (λ refusal. refusal ≡ NoMemory) }
{
    let Some(role) = refused_role(&error) else {
        return Err(Refusal::NoMemory);
    };
    let text = format!(in alloc; "{error}\n")?;
    Ok(Answer {
        ending: Ending::Refused(role),
        text,
    })
}

/// The lockfile that cannot be merged, if memory did not run out.
fn refused_role(error: &MergeError<'_>) -> Option<Role>
    ensures { result ≡ refused_role error.now }
{
    match error {
        MergeError::Memory => None,
        MergeError::Root(role) => Some(*role),
        MergeError::Refused(role, _) => Some(*role),
    }
}
