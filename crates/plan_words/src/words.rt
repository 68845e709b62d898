// The words of a table.
ghost use Rattle.std.specs.Prelude.{◌≡◌};
ghost use Rattle.plan_words.specs.Words.{number_in};

// A word's number in a table, in which a space stands behind each word; the number of its words for one that is not there. Both as the contract has
// it: a table there is one text, and `named` tells the numbers that are none.
#[tactic(auto, unfolding(crate::specs::Words::number_in))]
pub(crate) fn number_in(table: &[u8], w: &[u8]) -> usize
    ensures { result ≡ number_in table.now w.now }
{
    let mut number: usize = 0;
    let mut start: usize = 0;
    for (i, c) in table.iter().enumerate() {
        if *c == b' ' {
            if w == &table[start..i] {
                return number;
            }
            number += 1;
            start = i + 1;
        }
    }
    number
}
