//! Laws on what files stand for and on the kinds by which they are refused, each the contract of a function without code.

ghost use Rattle.check_cases.specs.Laws.{FilesAreOneSetting, FilesHaveOneKind, SettingsAreNotRefused};

use map_expressions::laws::a_text_is_read_as_one_expression;
use v_parse::laws::one_source;

/// Files stand for at most one setting.
pub fn files_are_one_setting()
    ensures { FilesAreOneSetting }
{
    one_source();
    a_text_is_read_as_one_expression();
}

/// Files have at most one first kind.
pub fn files_have_one_kind()
    ensures { FilesHaveOneKind }
{
    one_source();
}

/// Files that stand for a setting are refused by no kind.
pub fn settings_are_not_refused()
    ensures { SettingsAreNotRefused }
{
    one_source();
}
