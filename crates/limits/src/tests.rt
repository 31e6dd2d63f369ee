ghost use Rattle.std.specs.Prelude.{◌≡◌, length};

use pool::{Making, Mark, Piece, Pool, TextRow, text_bytes};
use std::test::Fail;
use table::{Cause, Id, Table, TextId};

const ROW: TextRow = TextRow { start: 7, len: 7 };

// Adds a text; the number of the refusal's row where it is refused.
fn added(pool: &mut Pool, text: &[u8]) -> Result<TextId, u8> {
    pool.add_text(text)
        .map_err(|refusal| refusal.cause.number())
}

fn id(number: u32) -> TextId {
    TextId::new(number)
}

// Whether the number names this text.
fn reads(pool: &Pool, number: u32, text: &[u8]) -> bool {
    text_bytes(pool.mark, pool.bytes, pool.rows, id(number)).is_some_and(|bytes| bytes == text)
}

fn text(number: u32) -> Option<Piece<'static>> {
    Some(Piece::Text(id(number)))
}

// How many bytes and rows there are after adding, whatever came of it: a caller can tell, by the contract of `add_text` alone.
fn room_after(pool: &mut Pool, text: &[u8]) -> (usize, usize)
    ensures bytes { result.0 ≡ length pool.old.bytes.now }
    ensures rows { result.1 ≡ length pool.old.rows.now }
{
    let _ = pool.add_text(text);
    (pool.bytes.len(), pool.rows.len())
}

// Lets go in a branch of a text that is being made: a `Making` can be handed on as any other value.
fn let_go(making: Making, now: bool) {
    if now {
        drop(making);
    }
}

#[test]
fn nine_bytes_fit_in_nine(rt: HostRuntime) {
    let mut mark = Mark::empty();
    let mut bytes = [0u8; 9];
    let mut rows = [ROW; 3];
    let mut pool = Pool {
        mark: &mut mark,
        bytes: &mut bytes,
        rows: &mut rows,
    };
    assert_eq!(rt; added(&mut pool, b"0123456789"), Err(3));
    assert_eq!(rt; added(&mut pool, b"012345678"), Ok(id(0)));
    assert_eq!(rt; added(&mut pool, b"x"), Err(3));
    assert_eq!(rt; added(&mut pool, b""), Ok(id(1)));
    assert!(rt; reads(&pool, 0, b"012345678"));
    assert!(rt; reads(&pool, 1, b""));
    assert!(rt; !reads(&pool, 2, b""));
}

#[test]
fn the_higher_row_wins(rt: HostRuntime) {
    let mut mark = Mark::empty();
    let mut bytes = [0u8; 1];
    let mut rows = [ROW; 1];
    let mut pool = Pool {
        mark: &mut mark,
        bytes: &mut bytes,
        rows: &mut rows,
    };
    assert_eq!(rt; added(&mut pool, b"\xC3\x28"), Err(2));
    assert_eq!(rt; added(&mut pool, b""), Ok(id(0)));
    assert_eq!(rt; added(&mut pool, b"\xC3\x28"), Err(1));
}

#[test]
fn a_missing_piece_wins_over_a_full_pool(rt: HostRuntime) -> Result<(), Fail> {
    let mut mark = Mark::empty();
    let mut bytes = [0u8; 4];
    let mut rows = [ROW; 2];
    let mut pool = Pool {
        mark: &mut mark,
        bytes: &mut bytes,
        rows: &mut rows,
    };
    assert_eq!(rt; added(&mut pool, b"abcd"), Ok(id(0)));
    let mut pieces = Vec::new(rt.alloc());
    pieces.push(text(0))?;
    pieces.push(text(0))?;
    pieces.push(None)?;
    assert!(rt; pieces.len() == 3);
    assert_eq!(rt; pool.make_text(&pieces), Ok(None));
    assert_eq!(rt; pool.make_text(&pieces[0..2]), Err(Cause::TextDoesNotFit));
    assert_eq!(rt; pool.mark.bytes, 4);
    assert_eq!(rt; pool.make_text(&pieces[0..0]), Ok(Some(id(1))));
    assert_eq!(rt; pool.make_text(&pieces[0..0]), Err(Cause::TextDoesNotFit));
    Ok(())
}

#[test]
fn tables_end_at_the_limit_or_the_slice(rt: HostRuntime) {
    let mut short = [5u8; 3];
    let table: Table<table::Blocks, u8> = Table::over(&mut short);
    assert_eq!(rt; table.get(Id::new(2)), Some(5));
    assert_eq!(rt; table.get(Id::new(3)), None);
    let mut long = [5u8; 1030];
    let mut table: Table<table::Blocks, u8> = Table::over(&mut long);
    assert!(rt; table.set(Id::new(1023), 6));
    assert!(rt; !table.set(Id::new(1024), 6));
    assert_eq!(rt; table.get(Id::new(1023)), Some(6));
    assert_eq!(rt; table.get(Id::new(1024)), None);
}

#[test]
fn adding_leaves_as_much_memory_as_was_lent(rt: HostRuntime) {
    let mut mark = Mark::empty();
    let mut bytes = [0u8; 2];
    let mut rows = [ROW; 3];
    let mut pool = Pool {
        mark: &mut mark,
        bytes: &mut bytes,
        rows: &mut rows,
    };
    assert_eq!(rt; room_after(&mut pool, b"ab"), (2, 3));
    assert_eq!(rt; room_after(&mut pool, b"c"), (2, 3));
}

#[test]
fn the_mark_goes_back_where_a_making_is_let_go(rt: HostRuntime) {
    let mut mark = Mark::empty();
    let mut bytes = [0u8; 2];
    let mut making = Making::begin(&mut mark);
    assert_eq!(rt; making.push(&mut bytes, b"ab"), Some(()));
    let_go(making, true);
    assert_eq!(rt; mark.bytes, 0);
}
