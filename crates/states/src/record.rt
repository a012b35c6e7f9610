// The words of one rule in the record of all rules.
ghost use Rattle.std.specs.Prelude.{◌≡◌, ◌<◌, eqb};
ghost use Rattle.states.specs.Records.{rule_words, record_with};

pub(crate) fn load(words: &[u64; 80], i: usize) -> [u64; 5]
    requires { i < 16 }
    ensures { result ≡ rule_words words.now i }
{
    let k = 5 * i;
    let mut w = [0; 5];
    w.copy_from_slice(&words[k..k + 5]);
    w
}

pub(crate) fn store(words: &mut [u64; 80], i: usize, w: [u64; 5])
    requires { i < 16 }
    ensures { words.new ≡ record_with (λ j. eqb j i) (λ j. w) words.old }
{
    let k = 5 * i;
    words[k..k + 5].copy_from_slice(&w);
}
