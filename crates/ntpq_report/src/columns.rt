ghost use Rattle.std.specs.Prelude.{◌≡◌, ◌++◌, OnOk, codes};
ghost use Rattle.ntpq_report.specs.Columns.{in_column, layout_of, row_text, texts_of, titles};

use crate::fields::{put_left, put_right};
use std::alloc::AllocError;

/// The side of a column at which a text stands.
#[derive(Clone, Copy)]
pub(crate) enum Side {
    /// Spaces follow it.
    Left,
    /// Spaces precede it.
    Right,
}

/// A column of the report of the peers.
#[derive(Clone, Copy)]
pub(crate) enum Column {
    /// The address of the peer.
    Remote,
    /// Its reference identifier.
    Refid,
    /// Its stratum.
    Stratum,
    /// The poll interval, in seconds.
    Poll,
    /// The reach register, in octal digits.
    Reach,
    /// The delay, in milliseconds.
    Delay,
    /// The offset, in milliseconds.
    Offset,
    /// The jitter, in milliseconds.
    Jitter,
}

/// A text for each column.
#[derive(Clone, Copy)]
pub(crate) struct Row<'a> {
    pub remote: &'a [u8],
    pub refid: &'a [u8],
    pub stratum: &'a [u8],
    pub poll: &'a [u8],
    pub reach: &'a [u8],
    pub delay: &'a [u8],
    pub offset: &'a [u8],
    pub jitter: &'a [u8],
}

/// The titles of the columns.
pub(crate) fn titles() -> Row<'static>
    ensures { texts_of result ≡ titles }
{
    Row {
        remote: title(Column::Remote),
        refid: title(Column::Refid),
        stratum: title(Column::Stratum),
        poll: title(Column::Poll),
        reach: title(Column::Reach),
        delay: title(Column::Delay),
        offset: title(Column::Offset),
        jitter: title(Column::Jitter),
    }
}

/// The title of a column, as the header has it.
fn title(column: Column) -> &'static [u8]
    ensures { result.now ≡ (layout_of column).title }
{
    match column {
        Column::Remote => b"remote",
        Column::Refid => b"refid",
        Column::Stratum => b"st",
        Column::Poll => b"poll",
        Column::Reach => b"reach",
        Column::Delay => b"delay",
        Column::Offset => b"offset",
        Column::Jitter => b"jitter",
    }
}

/// How many octets a column has.
fn width(column: Column) -> usize
    ensures { result ≡ (layout_of column).width }
{
    match column {
        Column::Remote => 39,
        Column::Refid => 15,
        Column::Stratum => 2,
        Column::Poll => 6,
        Column::Reach => 5,
        Column::Delay | Column::Offset | Column::Jitter => 14,
    }
}

/// The side of a column at which its texts stand.
fn side_of(column: Column) -> Side
    ensures { result ≡ (layout_of column).side }
{
    match column {
        Column::Remote | Column::Refid => Side::Left,
        _ => Side::Right,
    }
}

/// Appends the texts of a row in their columns.
pub(crate) fn put_row(text: &mut Vec<u8>, row: &Row<'_>) -> Result<(), AllocError>
    ensures { OnOk result (text.new.items ≡ text.old.items ++ row_text (texts_of row.now)) }
{
    put_cell(text, Column::Remote, row.remote)?;
    put_next(text, Column::Refid, row.refid)?;
    put_next(text, Column::Stratum, row.stratum)?;
    put_next(text, Column::Poll, row.poll)?;
    put_next(text, Column::Reach, row.reach)?;
    put_next(text, Column::Delay, row.delay)?;
    put_next(text, Column::Offset, row.offset)?;
    put_next(text, Column::Jitter, row.jitter)?;
    Ok(())
}

/// Appends a space, and a text in its column.
fn put_next(text: &mut Vec<u8>, column: Column, field: &[u8]) -> Result<(), AllocError>
    ensures { OnOk result
        (text.new.items ≡ text.old.items ++ codes " " ++ in_column column field.now) }
{
    text.push(b' ')?;
    put_cell(text, column, field)
}

/// Appends a text in its column.
fn put_cell(text: &mut Vec<u8>, column: Column, field: &[u8]) -> Result<(), AllocError>
    ensures { OnOk result (text.new.items ≡ text.old.items ++ in_column column field.now) }
{
    match side_of(column) {
        Side::Left => put_left(text, width(column), field),
        Side::Right => put_right(text, width(column), field),
    }
}
