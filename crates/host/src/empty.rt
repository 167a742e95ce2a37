// Words to start from: no record in use and every file empty.

ghost use Rattle.std.specs.Prelude.{◌≡◌, true, replicate};
ghost use Rattle.tables.specs.Words.{tables_of, in_use_fit};
ghost use Rattle.host.specs.HostCall.{no_tables};

pub fn empty_words(words: &mut [u64; 1605])
    ensures words_after { words.new ≡ replicate 1605 0 }
    ensures words_after_2 { tables_of words.new ≡ no_tables }
    ensures words_after_3 { in_use_fit words.new ≡ true }
{
    *words = [0; 1605];
}
