//! The comments at the top of a merge.

ghost use Rattle.std.specs.Prelude.{◌≡◌, false};
ghost use Rattle.cargo_lock_merge.specs.Comments.{AreMergedComments, comments_line, comments_word};

use cargo_lock_merge_core::rule3::{Equal, Side, agreed_side};

/// The comments at the top of a merge.
#[derive(Clone, Copy)]
pub struct MergedComments<'a> {
    /// The comments, each with its newline.
    pub text: &'a str,

    /// Whether both sides changed them, each to others. They are ours then.
    pub are_disputed: bool,
}

/// The comments of a merge, by the rule of three: where both sides have the same, or one side has
/// those of the base, those of the other; else ours. They are one value, and not merged line by line.
///
/// ```
/// let comments = merge_comments(base.as_str(), ours.as_str(), theirs.as_str());
/// ```
pub fn merge_comments<'a>(base: &str, ours: &'a str, theirs: &'a str) -> MergedComments<'a>
    ensures { AreMergedComments base.now ours.now theirs.now result }
{
    let equal = Equal {
        sides: ours == theirs,
        ours: ours == base,
        theirs: theirs == base,
    };
    match agreed_side(equal) {
        Some(Side::Ours) => MergedComments::agreed(ours),
        Some(Side::Theirs) => MergedComments::agreed(theirs),
        None => MergedComments {
            text: ours,
            are_disputed: true,
        },
    }
}

impl<'a> MergedComments<'a> {
    /// Whose they are, in a word: `agreed`, or `ours`, where both sides changed them.
    ///
    /// ```
    /// let word = comments.word();
    /// ```
    pub fn word(self) -> &'static str
        ensures { result.now ≡ comments_word self.entry }
    {
        if self.are_disputed { "ours" } else { "agreed" }
    }

    /// The line about them with its newline, if both sides changed them.
    ///
    /// ```
    /// let line = comments.line();
    /// ```
    pub fn line(self) -> &'static str
        ensures { result.now ≡ comments_line self.entry }
    {
        if self.are_disputed {
            "comments: both sides changed those at the top; ours are taken\n"
        } else {
            ""
        }
    }

    // Comments that are agreed on.
    fn agreed(text: &'a str) -> MergedComments<'a>
        ensures { result ≡ record { text = text.entry; are_disputed = false } }
    {
        MergedComments {
            text,
            are_disputed: false,
        }
    }
}
