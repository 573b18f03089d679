// Totals as words: four of 32 bits.
ghost use Rattle.std.specs.Prelude.{◌≡◌, length};
ghost use Rattle.words.specs.Totals.{totals_in, totals_words};

use rules::Totals;

// The totals that the words show.
pub fn read_totals(words: &[u32]) -> Totals
    requires { length words.now ≡ 4 }
    ensures { result ≡ totals_in words.now }
{
    Totals {
        worked: words[0],
        refused: words[1],
        moved: words[2],
        sweeps: words[3],
    }
}

// The words that show totals.
pub fn write_totals(totals: Totals, words: &mut [u32])
    requires { length words.old ≡ 4 }
    ensures { words.new ≡ totals_words totals }
{
    words.copy_from_slice(&[totals.worked, totals.refused, totals.moved, totals.sweeps]);
}
