// CLOSE, LOGOFF, TREE_DISCONNECT and PROCESS_EXIT: what is named goes, "each with what hangs on them". "LOGOFF and
// PROCESS_EXIT stop after 2/91, TREE_DISCONNECT after 2/5, CLOSE after 1/6." Their blocks have no bytes.

ghost use Rattle.std.specs.Prelude.{◌≡◌, true, [], length};
ghost use Rattle.tables.specs.Words.{tables_of, in_use_fit};
ghost use Rattle.chain.specs.declared.block.Body.TheVariants.{Close, Logoff, TreeDisconnect, ProcessExit};
ghost use Rattle.message.specs.Command.{perform};
ghost use Rattle.invariants.specs.Sound.{Good};
ghost use Rattle.requests.specs.Leaves.{Leaves, performed};

use crate::who::{reach_open, reach_session, reach_tree};
use message::answer::Answer;
use message::caller::Caller;
use message::refusal::Refusal;
use removal::Gone;
use removal::sweep::remove_named;

// "CLOSE removes the open and its locks."
pub(crate) fn do_close(c: Caller, words: &mut [u64], fid: u16) -> Result<Answer, Refusal>
    requires words_len { length words.old ≡ 1605 }
    requires good { Good (tables_of words.old) }
    ensures leaves { Leaves (λ m. perform c (tables_of words.old) m (Close fid) [] []) (tables_of words.old) (performed result (tables_of words.new)) }
    ensures words_after { in_use_fit words.old ≡ true → in_use_fit words.new ≡ true }
{
    reach_open(c, words, fid)?;
    remove_named(words, Gone::Open(fid));
    Ok(Answer::Plain)
}

// "LOGOFF the session and its trees".
pub(crate) fn do_logoff(c: Caller, words: &mut [u64]) -> Result<Answer, Refusal>
    requires words_len { length words.old ≡ 1605 }
    requires good { Good (tables_of words.old) }
    ensures leaves { Leaves (λ m. perform c (tables_of words.old) m Logoff [] []) (tables_of words.old) (performed result (tables_of words.new)) }
    ensures words_after { in_use_fit words.old ≡ true → in_use_fit words.new ≡ true }
{
    reach_session(c, words)?;
    remove_named(words, Gone::Session(c.uid));
    Ok(Answer::LoggedOff)
}

// "TREE_DISCONNECT removes the tree and its opens".
pub(crate) fn do_disconnect(c: Caller, words: &mut [u64]) -> Result<Answer, Refusal>
    requires words_len { length words.old ≡ 1605 }
    requires good { Good (tables_of words.old) }
    ensures leaves { Leaves (λ m. perform c (tables_of words.old) m TreeDisconnect [] []) (tables_of words.old) (performed result (tables_of words.new)) }
    ensures words_after { in_use_fit words.old ≡ true → in_use_fit words.new ≡ true }
{
    reach_tree(c, words)?;
    remove_named(words, Gone::Tree(c.tid));
    Ok(Answer::Plain)
}

// "PROCESS_EXIT the opens of that UID and process".
pub(crate) fn do_exit(c: Caller, words: &mut [u64]) -> Result<Answer, Refusal>
    requires words_len { length words.old ≡ 1605 }
    requires good { Good (tables_of words.old) }
    ensures leaves { Leaves (λ m. perform c (tables_of words.old) m ProcessExit [] []) (tables_of words.old) (performed result (tables_of words.new)) }
    ensures words_after { in_use_fit words.old ≡ true → in_use_fit words.new ≡ true }
{
    reach_session(c, words)?;
    remove_named(words, Gone::Process(c.uid, c.process));
    Ok(Answer::Plain)
}
