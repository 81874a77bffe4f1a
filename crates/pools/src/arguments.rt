//! The arguments of the program.
ghost use Rattle.std.specs.Prelude.{◌≡◌, ℕ, IfSome, MatchOption, map};
ghost use Rattle.object_pool_cores.specs.Engine.{IsPlayable};
ghost use Rattle.object_pool_cores.specs.declared.engine.kind.Reset.{Reset};
ghost use Rattle.pools.specs.Arguments.{reset_word, IsPages, AreArguments, AreOther};

use object_pool_cores::engine::{Kind, Reset, number_of};

/// The pool to play on, and what a return leaves of an item.
#[derive(Clone, Copy, Debug, PartialEq, Eq)]
pub struct Arguments {
    pub kind: Kind,
    pub reset: Reset,
}

/// Reads the arguments from the words after the program's name.
///
/// # Errors
///
/// `None` if the words ask for no pool.
pub fn arguments_of(words: &[&str]) -> Option<Arguments>
    ensures judged { MatchOption result (AreOther (map (λ word. word.now) words.now))
        (λ arguments. AreArguments (map (λ word. word.now) words.now)
        arguments.kind arguments.reset) }
    ensures playable { IfSome result (λ arguments. IsPlayable arguments.kind) }
{
    let (kind, reset) = match words {
        ["linear", reset] => (Kind::Linear, reset),
        ["linear", reset, pages] => (Kind::Bounded(pages_of(pages)?), reset),
        ["stack", reset] => (Kind::Stack, reset),
        ["none", reset] => (Kind::None, reset),
        _ => return None,
    };
    let reset = reset_of(reset)?;
    Some(Arguments { kind, reset })
}

/// Reads what a return leaves, or returns `None` for another word.
fn reset_of(word: &str) -> Option<Reset>
    ensures { MatchOption result ((reset : Reset) → word.now ≡ reset_word reset → ⊥)
        (λ reset. word.now ≡ reset_word reset) }
{
    match word {
        "zero" => Some(Reset::Zero),
        "keep" => Some(Reset::Keep),
        _ => None,
    }
}

/// Reads a number of pages, or returns `None` for another word or 0.
fn pages_of(word: &str) -> Option<usize>
    ensures { MatchOption result ((pages : ℕ) → IsPages word.now pages → ⊥) (IsPages word.now) }
{
    match number_of(word.as_bytes())? {
        0 => None,
        pages => Some(pages as usize),
    }
}

#[cfg(test)]
mod tests {
    use super::*;

    #[test]
    fn a_number_of_pages_bounds_a_linear_pool(rt: HostRuntime) {
        let rows = [
            ("1", 1),
            ("0000000002", 2),
            ("33", 33),
            ("4294967295", 4294967295),
        ];
        for (word, pages) in rows {
            let arguments = Arguments {
                kind: Kind::Bounded(pages),
                reset: Reset::Keep,
            };
            assert_eq!(rt;
                arguments_of(&["linear", "keep", word]),
                Some(arguments),
                "{word}"
            );
        }
    }

    #[test]
    fn each_pool_is_reset_to_zero_or_kept(rt: HostRuntime) {
        for (pool, kind) in [
            ("linear", Kind::Linear),
            ("stack", Kind::Stack),
            ("none", Kind::None),
        ] {
            for (word, reset) in [("zero", Reset::Zero), ("keep", Reset::Keep)] {
                assert_eq!(rt;
                    arguments_of(&[pool, word]),
                    Some(Arguments { kind, reset }),
                    "{pool} {word}"
                );
            }
        }
    }

    #[test]
    fn other_words_are_no_arguments(rt: HostRuntime) {
        let rows: [&[&str]; 18] = [
            &[],
            &["linear"],
            &["zero", "linear"],
            &["heap", "keep"],
            &["Linear", "zero"],
            &["linear", "zeros"],
            &["linear", ""],
            &["stack", "zero", "1"],
            &["none", "keep", "1"],
            &["linear", "zero", "0"],
            &["linear", "zero", ""],
            &["linear", "zero", "+1"],
            &["linear", "zero", "1 "],
            &["linear", "zero", "4294967296"],
            &["linear", "zero", "00000000001"],
            &["linear", "1", "zero"],
            &["linear", "zero", "1", "1"],
            &["stack", "keep", ""],
        ];
        for words in rows {
            assert_eq!(rt; arguments_of(words), None, "{words:?}");
        }
    }
}
