//! Laws about files, for the top call and the commands. None of these functions has code.

ghost use Rattle.ocra_tool.specs.Laws.{SoundHasNoFault, SoundHasNoSecondFault, FilesCanBeDecided};
ghost use Rattle.ocra_tool.specs.Laws.{ReplaysAreModerate, ReplaysHaveOneText};

/// Files without a fault for a task have none: neither FILE nor the second file. (A law without code: who calls this
/// function may rely on it.)
pub fn sound_files_have_no_fault()
    ensures first { SoundHasNoFault }
    ensures second { SoundHasNoSecondFault }
{
    oss_lexer::one_token_list();
    oss_lexer::tokens_without_fault();
    architecture::stands_is_unique();
    replay::lassos_dont_break();
}

/// The levels of a specification that is a file can be decided. (A law without code.)
pub fn files_can_be_decided()
    ensures { FilesCanBeDecided }
{
    file_types::files_have_codable_types();
    file_types::files_read_free_ports();
}

/// Terms stay moderate where a lasso of a file's specification is judged. (A law without code.)
pub fn replays_are_moderate()
    ensures { ReplaysAreModerate }
{
    architecture::resolved_has_values();
    replay::lassos_are_moderate();
}

/// Two files have one text of judgements. (A law without code.)
pub fn replays_have_one_text()
    ensures { ReplaysHaveOneText }
{
    architecture::resolved_has_values();
    replay::texts_mean_one_lasso();
    replay::judgements_are_unique();
}
