//! How the program ends, and what it says then.
ghost use Rattle.std.specs.Prelude.{◌≡◌};
ghost use Rattle.pools.specs.Ending.{message_of, status_of};

use object_pool_cores::engine::EngineError;

/// Why the program ended.
#[derive(Clone, Copy, Debug, PartialEq, Eq)]
pub enum Ending {
    /// Each line of the input has its reply.
    EndOfInput,
    /// The arguments ask for no pool.
    OtherArguments,
    /// The engine stopped, or there was no memory for the arguments.
    Stopped(EngineError),
}

/// What the program says at its end.
#[derive(Clone, Copy, Debug, PartialEq, Eq)]
pub struct Report {
    /// All that stands on standard error.
    pub message: &'static str,
    /// The exit status.
    pub status: u8,
}

/// Returns what the program says of this ending.
pub fn report_of(ending: Ending) -> Report
    ensures message { result.message.now ≡ message_of ending }
    ensures status { result.status ≡ status_of ending }
{
    let (message, status) = match ending {
        Ending::EndOfInput => ("", 0),
        Ending::OtherArguments => ("usage: pools linear|stack|none zero|keep [PAGES]\n", 2),
        Ending::Stopped(EngineError::Read) => ("pools: read failed\n", 1),
        Ending::Stopped(EngineError::Write) => ("pools: write failed\n", 1),
        Ending::Stopped(EngineError::Memory) => ("pools: out of memory\n", 1),
    };
    Report { message, status }
}

#[cfg(test)]
mod tests {
    use super::*;

    #[test]
    fn each_ending_has_its_message_and_status(rt: HostRuntime) {
        let rows = [
            (Ending::EndOfInput, "", 0),
            (
                Ending::OtherArguments,
                "usage: pools linear|stack|none zero|keep [PAGES]\n",
                2,
            ),
            (
                Ending::Stopped(EngineError::Read),
                "pools: read failed\n",
                1,
            ),
            (
                Ending::Stopped(EngineError::Write),
                "pools: write failed\n",
                1,
            ),
            (
                Ending::Stopped(EngineError::Memory),
                "pools: out of memory\n",
                1,
            ),
        ];
        for (ending, message, status) in rows {
            let report = report_of(ending);
            assert_eq!(rt;
                (report.message, report.status),
                (message, status),
                "{ending:?}"
            );
        }
    }
}
