// Runs and their parents together, row by row: a row's runs are linked while they, and those of the row above, are still near at hand.
ghost use Rattle.labelling.specs.stages.Linking.{LinkRoom, LinkedRuns};

use crate::link::RunTable;
use crate::runs::Row;

// Writes the runs of a mask, w wide and h high, to the words and their parents to the words from `parents` on, and answers how many runs
// there are. The caller says where the parents stand, so that the runs need not be counted first. Extracting a row may write the word
// after its turns too: the parents begin behind that one, however many runs there are.
pub fn extract_linked(mask: &[u8], w: usize, h: usize, words: &mut [u32], parents: usize) -> usize
    requires { LinkRoom w h mask.now words.old parents }
    ensures { LinkedRuns w h mask.now words.old words.new parents result }
{
    let mut above = 0;
    let mut here = 0;
    let mut base = 0;
    for y in 0..h {
        let end = base + w;
        let row = Row {
            dots: &mask[base..end],
            base,
        };
        let known = row.extract(words, 2 * here) / 2;
        let list = RunTable {
            c: known,
            parents,
            w,
        };
        let next = list.link_row(words, above, here, end);
        above = here;
        here = next;
        base = end;
    }
    here
}
