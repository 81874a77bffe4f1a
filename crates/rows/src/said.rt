//! What is said to a command.

/// Words, and up to three numbers behind them.
#[derive(Clone, Copy, Debug, PartialEq, Eq)]
pub struct Said {
    words: &'static str,
    numbers: [Option<usize>; 3],
}

impl Said {
    /// Says words alone.
    pub fn of(words: &'static str) -> Said {
        Said {
            words,
            numbers: [None; 3],
        }
    }

    /// Says one number more. A fourth isn't said.
    pub fn and(self, number: usize) -> Said {
        let Said { words, numbers } = self;
        let [first, second, third] = numbers;
        let numbers = match (first, second) {
            (None, _) => [Some(number), None, None],
            (_, None) => [first, Some(number), None],
            _ => [first, second, third.or(Some(number))],
        };
        Said { words, numbers }
    }

    /// The words that were said.
    pub fn words(&self) -> &'static str {
        self.words
    }

    /// The number that was said at this place among them, from 0 on.
    pub fn number(&self, place: usize) -> Option<usize> {
        self.numbers.get(place).copied().flatten()
    }

    /// Whether a row's answer, or one of several, says the same at this turn.
    pub fn is_as(&self, wanted: &str, turn: usize) -> bool {
        match wanted.split_once('|') {
            Some((one, rest)) => self.is_one_as(one, turn) || self.is_one_as(rest, turn),
            None => self.is_one_as(wanted, turn),
        }
    }

    fn is_one_as(&self, wanted: &str, turn: usize) -> bool {
        if wanted == ".." {
            return true;
        }
        let mut words = self.words.split_whitespace();
        let mut numbers = self.numbers.iter().copied().flatten();
        for told in wanted.split_whitespace() {
            let is_same = match number_at(told, turn) {
                Some(number) => numbers.next() == Some(number),
                None if told == "_" => numbers.next().is_some(),
                None => words.next() == Some(told),
            };
            if !is_same {
                return false;
            }
        }
        words.next().is_none() && numbers.next().is_none()
    }
}

/// A number that a row tells, at this turn. With `+` behind it, it grows with the turns.
pub fn number_at(told: &str, turn: usize) -> Option<usize> {
    match told.strip_suffix('+') {
        Some(first) => first.parse::<usize>().ok()?.checked_add(turn),
        None => told.parse().ok(),
    }
}
