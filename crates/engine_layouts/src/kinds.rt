//! The names of operators' kinds.
ghost use Rattle.std.specs.Prelude.{◌≡◌, ◌++◌, IfOk};
ghost use Rattle.statements.specs.Views.{key_view, op_view};
ghost use Rattle.engine_layouts.specs.Shown.{added_word as added_word_lem, join_word as join_word_lem, key_word as key_word_lem, kind_word};

use par_base::{Memory, Text};
use statements::{KeyText, OpText};
use std::alloc::Global;

fn key_word(key: &KeyText) -> &'static str
    ensures { result.now ≡ key_word_lem (key_view key.now) }
{
    match key {
        KeyText::Primary => "pk",
        KeyText::Foreign(_) => "fk",
        KeyText::Condition(_) => "on",
    }
}

fn join_word(outer: bool) -> &'static str
    ensures { result.now ≡ join_word_lem outer }
{
    if outer { "outer_join_" } else { "join_" }
}

fn added_word(tracked: bool) -> &'static str
    ensures { result.now ≡ added_word_lem tracked }
{
    if tracked { "add_tracked" } else { "add_column" }
}

fn keyed(alloc: Global, word: &str, key: &KeyText) -> Result<Text, Memory>
    ensures { IfOk result (λ text. text ≡ word.now ++ key_word_lem (key_view key.now)) }
{
    let mut text = String::from_str(alloc, word)?;
    text.push_str(key_word(key))?;
    Ok(Text::from_string(text))
}

/// The name of an operator's kind.
pub fn kind_text(alloc: Global, operator: &OpText) -> Result<Text, Memory>
    ensures { IfOk result (λ text. text ≡ kind_word (op_view operator.now)) }
{
    match operator {
        OpText::CreateTable { .. } => Text::from_str(alloc, "create_table"),
        OpText::DropTable { .. } => Text::from_str(alloc, "drop_table"),
        OpText::RenameTable { .. } => Text::from_str(alloc, "rename_table"),
        OpText::RenameColumn { .. } => Text::from_str(alloc, "rename_column"),
        OpText::AddColumn { tracked, .. } => Text::from_str(alloc, added_word(*tracked)),
        OpText::DropColumn { .. } => Text::from_str(alloc, "drop_column"),
        OpText::DecomposeSingle { .. } => Text::from_str(alloc, "decompose"),
        OpText::Decompose { key, .. } => keyed(alloc, "decompose_", key),
        OpText::Join { outer, key, .. } => keyed(alloc, join_word(*outer), key),
        OpText::Split { .. } => Text::from_str(alloc, "split"),
        OpText::Merge { .. } => Text::from_str(alloc, "merge"),
    }
}
