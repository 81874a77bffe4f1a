//! Players: a command that was refused is answered again as with ample memory, and a run goes on
//! from the commands done.
use crate::assert_equal::assert_equal;
use crate::refusals::{Refusals, again};
use lockfree_object_pool::PullError;
use lockfree_object_pool::clean::AnyValue;
use lockfree_object_pool::closures::{Copied, Keep};
use object_pool_cores::sequential::{
    AttachError, Command, LinearCore, NoneCore, Player, Reply, RunError, SequentialPool, StackCore,
};
use std::alloc::Global;
use std::process::Abort;
use std::sync::Arc;
use test_values::tallied::{Tallied, TalliedValues};
use test_values::tally::Tally;

type Zeros = Copied<u32, AnyValue>;

/// What a pool does with its items, as far as replies tell.
#[derive(Clone, Copy)]
enum Pool {
    Linear,
    Stack,
    Fresh,
}

/// The number of the item at a place of the pool.
fn number_in(pool: Pool, place: usize) -> Option<u128> {
    match pool {
        Pool::Linear => u128::try_from(place).ok(),
        Pool::Stack | Pool::Fresh => None,
    }
}

fn linear(
    rt: &(impl Abort + AllocGlobal),
    refusals: &Refusals,
) -> LinearCore<u32, Zeros, Keep, AnyValue> {
    again!(
        rt,
        refusals,
        LinearCore::new(rt.alloc(), Copied::new(0), Keep)
    )
}

fn stack(alloc: Global) -> StackCore<u32, Zeros, Keep, AnyValue> {
    StackCore::new(alloc, Copied::new(0), Keep)
}

fn fresh() -> NoneCore<u32, Zeros> {
    NoneCore::new(Copied::new(0))
}

/// How many commands there are.
const COMMANDS: usize = 8;

fn command_at(index: usize) -> Command<u32> {
    match index {
        1 => Command::Write(0, 5),
        2 => Command::Return(0),
        4 => Command::Attach(9),
        5 => Command::Forget(1),
        6 => Command::Return(1),
        _ => Command::Pull,
    }
}

/// The reply to the command at an index, with ample memory.
fn reply_at(pool: Pool, index: usize) -> Reply<u32> {
    match (index, pool) {
        (0, _) => Reply::Pulled(0, number_in(pool, 0)),
        (1, _) => Reply::Written,
        (2, _) => Reply::Returned,
        (3, _) => Reply::Pulled(1, number_in(pool, 0)),
        (4, Pool::Stack) => Reply::Attached(2),
        (4, _) => Reply::AttachRefused(AttachError::NotOffered(9)),
        (5, _) => Reply::Forgotten,
        (6, _) => Reply::NoSuchHolder,
        (_, Pool::Stack) => Reply::Pulled(3, None),
        _ => Reply::Pulled(2, number_in(pool, 1)),
    }
}

/// The reply to the command at an index, which is played again where memory was refused.
fn reply_again<P: SequentialPool<u32>>(
    refusals: &Refusals,
    player: &mut Player<u32, P>,
    index: usize,
) -> Result<Reply<u32>, RunError> {
    match player.play(command_at(index)) {
        Err(RunError::Memory)
        | Ok(Reply::Refused(PullError::Memory))
        | Ok(Reply::AttachRefused(AttachError::Memory(9))) => {
            refusals.note();
            player.play(command_at(index))
        }
        reply => reply,
    }
}

/// Plays the commands, each again where it was refused.
fn plays_each_again<P: SequentialPool<u32> + Drop>(
    rt: &impl Abort,
    refusals: &Refusals,
    alloc: Global,
    pool: Pool,
    core: P,
) {
    let mut player = Player::new(alloc, core);
    for index in 0..COMMANDS {
        let reply = reply_again(refusals, &mut player, index);
        assert_equal(rt, (index, reply), (index, Ok(reply_at(pool, index))));
    }
    assert_equal(rt, (player.held(0), player.held(1)), (None, None));
}

#[test]
fn a_linear_player_answers_a_command_again_as_with_memory(rt: HostRuntime) {
    let refusals = Refusals::new();
    let core = linear(&rt, &refusals);
    plays_each_again(&rt, &refusals, rt.alloc(), Pool::Linear, core);
    refusals.tell(&rt);
}

#[test]
fn a_stack_player_answers_a_command_again_as_with_memory(rt: HostRuntime) {
    let refusals = Refusals::new();
    plays_each_again(&rt, &refusals, rt.alloc(), Pool::Stack, stack(rt.alloc()));
    refusals.tell(&rt);
}

#[test]
fn a_fresh_player_answers_a_command_again_as_with_memory(rt: HostRuntime) {
    let refusals = Refusals::new();
    plays_each_again(&rt, &refusals, rt.alloc(), Pool::Fresh, fresh());
    refusals.tell(&rt);
}

/// How many pulls a run has.
const PULLS: usize = 4;

/// How many of the replies tell of a pull. The pulls count the holders from 0 on, and the others
/// were refused for memory.
fn pulled(rt: &impl Abort, pool: Pool, replies: &[Reply<u32>]) -> usize {
    let mut pulled = 0usize;
    for reply in replies {
        match reply {
            Reply::Pulled(holder, number) => {
                assert_equal(rt, (*holder, *number), (pulled, number_in(pool, pulled)));
                pulled = pulled.saturating_add(1);
            }
            other => assert_equal(rt, other, &Reply::Refused(PullError::Memory)),
        }
    }
    pulled
}

/// A list of so many pulls.
fn pulls(rt: &impl Abort, refusals: &Refusals, alloc: Global, count: usize) -> Vec<Command<u32>> {
    let mut commands = refusals.list(rt, alloc, count);
    for _ in 0..count {
        commands.push(Command::Pull).expect(rt, "there is room");
    }
    commands
}

/// Runs the pulls that are left. The run was refused for the table or the list of replies, so no
/// pull was.
fn runs_rest<P: SequentialPool<u32>>(
    rt: &impl Abort,
    refusals: &Refusals,
    pool: Pool,
    player: &mut Player<u32, P>,
    replies: &mut Vec<Reply<u32>>,
    alloc: Global,
) {
    let done = replies.len();
    assert_equal(rt, pulled(rt, pool, replies), done);
    assert_equal(rt, (done < PULLS, player.held(done)), (true, None));
    let rest = pulls(rt, refusals, alloc, PULLS.saturating_sub(done));
    player
        .run(rest, replies)
        .expect(rt, "one request alone is refused");
}

/// Runs pulls as one list, and goes on from the pulls done where the run was refused.
fn runs_on<P: SequentialPool<u32> + Drop>(
    rt: &impl Abort,
    refusals: &Refusals,
    alloc: Global,
    pool: Pool,
    core: P,
) {
    let mut player = Player::new(alloc, core);
    let mut replies = Vec::new(alloc);
    let mut wanted = PULLS;
    if player
        .run(pulls(rt, refusals, alloc, PULLS), &mut replies)
        .is_err()
    {
        refusals.note();
        runs_rest(rt, refusals, pool, &mut player, &mut replies, alloc);
    } else if replies
        .as_slice()
        .contains(&Reply::Refused(PullError::Memory))
    {
        refusals.note();
        wanted = PULLS - 1;
    }
    assert_equal(rt, replies.len(), PULLS);
    assert_equal(rt, pulled(rt, pool, &replies), wanted);
}

#[test]
fn a_run_of_a_linear_player_goes_on_from_the_commands_done(rt: HostRuntime) {
    let refusals = Refusals::new();
    let core = linear(&rt, &refusals);
    runs_on(&rt, &refusals, rt.alloc(), Pool::Linear, core);
    refusals.tell(&rt);
}

#[test]
fn a_run_of_a_stack_player_goes_on_from_the_commands_done(rt: HostRuntime) {
    let refusals = Refusals::new();
    runs_on(&rt, &refusals, rt.alloc(), Pool::Stack, stack(rt.alloc()));
    refusals.tell(&rt);
}

#[test]
fn a_run_of_a_fresh_player_goes_on_from_the_commands_done(rt: HostRuntime) {
    let refusals = Refusals::new();
    runs_on(&rt, &refusals, rt.alloc(), Pool::Fresh, fresh());
    refusals.tell(&rt);
}

/// How many returns and pulls in turn there are.
const TURNS: usize = 300;

/// Pulls, and then returns and pulls in turn. A turn asks for no memory, so each is answered,
/// whatever request is refused; a table that kept what was returned would have to grow.
fn takes_turns<P: SequentialPool<u32> + Drop>(
    rt: &impl Abort,
    refusals: &Refusals,
    alloc: Global,
    pool: Pool,
    core: P,
) {
    let mut player = Player::new(alloc, core);
    let number = number_in(pool, 0);
    let first = reply_again(refusals, &mut player, 0);
    assert_equal(rt, first, Ok(Reply::Pulled(0, number)));
    for holder in 0..TURNS {
        let returned = player.play(Command::Return(holder));
        assert_equal(rt, (holder, returned), (holder, Ok(Reply::Returned)));
        let next = holder.saturating_add(1);
        let pulled = player.play(Command::Pull);
        assert_equal(rt, pulled, Ok(Reply::Pulled(next, number)));
    }
}

#[test]
fn returns_and_pulls_in_turn_take_no_memory(rt: HostRuntime) {
    let refusals = Refusals::new();
    let core = linear(&rt, &refusals);
    takes_turns(&rt, &refusals, rt.alloc(), Pool::Linear, core);
    refusals.tell(&rt);
}

#[test]
fn returns_to_a_stack_and_pulls_in_turn_take_no_memory(rt: HostRuntime) {
    let refusals = Refusals::new();
    takes_turns(&rt, &refusals, rt.alloc(), Pool::Stack, stack(rt.alloc()));
    refusals.tell(&rt);
}

#[test]
fn returns_and_pulls_of_fresh_items_in_turn_take_no_memory(rt: HostRuntime) {
    let refusals = Refusals::new();
    takes_turns(&rt, &refusals, rt.alloc(), Pool::Fresh, fresh());
    refusals.tell(&rt);
}

type Stack = StackCore<Tallied, TalliedValues, Keep, AnyValue>;

/// A player on a stack, which holds the value of number 0.
fn holder(
    rt: &(impl Abort + AllocGlobal),
    refusals: &Refusals,
    tally: &Arc<Tally>,
) -> Player<Tallied, Stack> {
    let init = TalliedValues::new(tally).expect(rt, "an owner takes no memory");
    let mut player = Player::new(rt.alloc(), StackCore::new(rt.alloc(), init, Keep));
    let pulled = match player.play(Command::Pull) {
        Err(RunError::Memory) | Ok(Reply::Refused(PullError::Memory)) => {
            refusals.note();
            player.play(Command::Pull)
        }
        reply => reply,
    };
    assert_equal(rt, matches!(pulled, Ok(Reply::Pulled(0, None))), true);
    player
}

/// The number of a held value.
fn number_held(player: &Player<Tallied, Stack>, holder: usize) -> Option<usize> {
    Some(player.held(holder)?.number)
}

/// How many writes a run has.
const WRITES: usize = 6;

/// Writes of values, each with the next number.
fn writes(
    rt: &impl Abort,
    refusals: &Refusals,
    alloc: Global,
    tally: &Arc<Tally>,
) -> Vec<Command<Tallied>> {
    let mut commands = refusals.list(rt, alloc, WRITES);
    for _ in 0..WRITES {
        let value = Tallied::new(tally).expect(rt, "a value takes no memory");
        commands
            .push(Command::Write(0, value))
            .expect(rt, "there is room");
    }
    commands
}

#[test]
fn a_run_that_was_refused_drops_the_commands_not_done(rt: HostRuntime) {
    let refusals = Refusals::new();
    let tally = refusals.tally(&rt);
    let mut player = holder(&rt, &refusals, &tally);
    let commands = writes(&rt, &refusals, rt.alloc(), &tally);
    assert_equal(&rt, tally.living(), WRITES + 1);
    let mut replies = Vec::new(rt.alloc());
    let is_refused = player.run(commands, &mut replies).is_err();
    if is_refused {
        refusals.note();
    }
    let done = replies.len();
    assert_equal(&rt, is_refused, done < WRITES);
    // What was written last is held, and lives alone.
    assert_equal(&rt, number_held(&player, 0), Some(done));
    assert_equal(&rt, tally.living(), 1);
    refusals.tell(&rt);
}

/// The table has room, so an attaching command is a reply in either case. Where memory is refused,
/// the value is in it.
#[test]
fn an_attach_that_was_refused_is_a_reply_with_the_value(rt: HostRuntime) {
    let refusals = Refusals::new();
    let tally = refusals.tally(&rt);
    let mut player = holder(&rt, &refusals, &tally);
    let returned = player.play(Command::Return(0));
    assert_equal(&rt, matches!(returned, Ok(Reply::Returned)), true);
    let value = Tallied::new(&tally).expect(&rt, "a value takes no memory");
    let reply = player.play(Command::Attach(value));
    let number = match &reply {
        Ok(Reply::Attached(holder)) => number_held(&player, *holder),
        Ok(Reply::AttachRefused(AttachError::Memory(back))) => {
            refusals.note();
            Some(back.number)
        }
        _ => None,
    };
    assert_equal(&rt, number, Some(1));
    refusals.tell(&rt);
}

/// A value for which the player's table has no room is dropped, and so is one that the pool hands
/// back.
#[test]
fn an_attach_that_finds_no_room_drops_the_value(rt: HostRuntime) {
    let refusals = Refusals::new();
    let tally = refusals.tally(&rt);
    let init = TalliedValues::new(&tally).expect(&rt, "an owner is made");
    let core: Stack = StackCore::new(rt.alloc(), init, Keep);
    let mut player = Player::new(rt.alloc(), core);
    let value = Tallied::new(&tally).expect(&rt, "a value takes no memory");
    let is_held = matches!(player.play(Command::Attach(value)), Ok(Reply::Attached(_)));
    if !is_held {
        refusals.note();
    }
    assert_equal(&rt, tally.living(), usize::from(is_held));
    drop(player);
    assert_equal(&rt, tally.living(), 0);
    refusals.tell(&rt);
}
