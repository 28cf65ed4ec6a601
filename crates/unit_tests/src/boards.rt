//! Counting by several seats, from one thread and from eight.
ghost use Rattle.std.specs.Prelude.{◌≡◌};
ghost use Rattle.std.specs.Thread.{IsSync};

use crate::checks::assert_same;
use stat_board::{Board, BoardSeat, Counter, NoAllowance};
use std::test::Fail;
use std::thread;
use std::thread::Threads;

// Each counter, in the order of the words, and how often it is counted.
const TIMES: [(Counter, u32); 8] = [
    (Counter::Spent, 1),
    (Counter::Unknown, 2),
    (Counter::NoPeer, 3),
    (Counter::NoLink, 4),
    (Counter::Forwarded, 5),
    (Counter::Sent, 6),
    (Counter::Ended, 7),
    (Counter::Failed, 8),
];

// Raises a counter by `times`.
fn raise(
    board: &Board,
    seat: &mut BoardSeat,
    counter: Counter,
    times: u32,
) -> Result<(), NoAllowance>
    requires { seat.old.board ≡ board.now }
    ensures { seat.new.board ≡ seat.old.board }
{
    for _i in 0..times {
        seat.count(board, counter)?;
    }
    Ok(())
}

// A thousand requests with an unknown key.
fn by_one(board: &Board, mut seat: BoardSeat) -> BoardSeat
    requires { seat.board ≡ board.now }
    ensures { result.board ≡ seat.board }
{
    let _ = raise(board, &mut seat, Counter::Unknown, 1000);
    seat
}

// The same in each of two threads, whose seats are joined.
fn by_two<R: Threads + Sync>(rt: &R, board: &Board, mut seat: BoardSeat) -> BoardSeat
    requires { seat.board ≡ board.now }
    ensures { result.board ≡ seat.board }
{
    let other = seat.split(board);
    let (mut first, second) = thread::join(
        rt,
        || -> BoardSeat
            requires { seat.board ≡ board.now }
            ensures { result.board ≡ seat.board }
        { by_one(board, seat) },
        || -> BoardSeat
            requires { other.board ≡ board.now }
            ensures { result.board ≡ other.board }
        { by_one(board, other) },
    );
    first.join(board, second);
    first
}

// In four.
fn by_four<R: Threads + Sync>(rt: &R, board: &Board, mut seat: BoardSeat) -> BoardSeat
    requires { seat.board ≡ board.now }
    ensures { result.board ≡ seat.board }
{
    let other = seat.split(board);
    let (mut first, second) = thread::join(
        rt,
        || -> BoardSeat
            requires { IsSync R.row × (seat.board ≡ board.now) }
            ensures { result.board ≡ seat.board }
        { by_two(rt, board, seat) },
        || -> BoardSeat
            requires { IsSync R.row × (other.board ≡ board.now) }
            ensures { result.board ≡ other.board }
        { by_two(rt, board, other) },
    );
    first.join(board, second);
    first
}

// In eight.
fn by_eight<R: Threads + Sync>(rt: &R, board: &Board, mut seat: BoardSeat) -> BoardSeat
    requires { seat.board ≡ board.now }
    ensures { result.board ≡ seat.board }
{
    let other = seat.split(board);
    let (mut first, second) = thread::join(
        rt,
        || -> BoardSeat
            requires { IsSync R.row × (seat.board ≡ board.now) }
            ensures { result.board ≡ seat.board }
        { by_four(rt, board, seat) },
        || -> BoardSeat
            requires { IsSync R.row × (other.board ≡ board.now) }
            ensures { result.board ≡ other.board }
        { by_four(rt, board, other) },
    );
    first.join(board, second);
    first
}

#[test]
fn eight_threads(rt: HostRuntime) -> Result<(), Fail> {
    let (board, first) = Board::new(rt.alloc())?;
    let seat = by_eight(&rt, &board, first);
    assert_same(&rt, board.close(seat), [0, 8000, 0, 0, 0, 0, 0, 0]);
    Ok(())
}

// Each counter has a word of its own.
#[test]
fn each_counter(rt: HostRuntime) -> Result<(), Fail> {
    let (board, mut seat) = Board::new(rt.alloc())?;
    for (counter, times) in TIMES {
        raise(&board, &mut seat, counter, times)?;
    }
    for (counter, times) in TIMES {
        assert_same(&rt, seat.read(&board, counter), u64::from(times));
    }
    assert_same(&rt, board.close(seat), [1, 2, 3, 4, 5, 6, 7, 8]);
    Ok(())
}

#[test]
fn another_seat(rt: HostRuntime) -> Result<(), Fail> {
    let (board, mut first) = Board::new(rt.alloc())?;
    let mut second = first.split(&board);
    raise(&board, &mut first, Counter::Sent, 5)?;
    assert_same(&rt, second.read(&board, Counter::Sent), 5);
    assert_same(&rt, second.read(&board, Counter::Ended), 0);
    Ok(())
}

#[test]
fn joined(rt: HostRuntime) -> Result<(), Fail> {
    let (board, mut first) = Board::new(rt.alloc())?;
    let mut second = first.split(&board);
    raise(&board, &mut first, Counter::Spent, 2)?;
    raise(&board, &mut first, Counter::Failed, 1)?;
    raise(&board, &mut second, Counter::Failed, 3)?;
    assert_same(&rt, second.read(&board, Counter::Failed), 4);
    first.join(&board, second);
    assert_same(&rt, first.read(&board, Counter::Failed), 4);
    assert_same(&rt, board.close(first), [2, 0, 0, 0, 0, 0, 0, 4]);
    Ok(())
}

// What a seat has after this many splits, of which the new seats are dropped.
fn halved(board: &Board, mut seat: BoardSeat, times: u32) -> BoardSeat
    requires { seat.board ≡ board.now }
    ensures { result.board ≡ seat.board }
{
    for _i in 0..times {
        seat = seat.split(board);
    }
    seat
}

// After 63 halves one more may be counted. Its half, rounded down, is none.
#[test]
fn halves(rt: HostRuntime) -> Result<(), Fail> {
    let (board, first) = Board::new(rt.alloc())?;
    let mut seat = halved(&board, first, 63);
    let mut nothing = seat.split(&board);
    assert_same(&rt, nothing.count(&board, Counter::Sent), Err(NoAllowance));
    assert_same(&rt, seat.count(&board, Counter::Sent), Ok(()));
    assert_same(&rt, seat.count(&board, Counter::Sent), Err(NoAllowance));
    assert_same(&rt, nothing.read(&board, Counter::Sent), 1);
    Ok(())
}
