// What stands over and beside the rows.
use crate::columns::{block_of, ends_group};
use crate::figure::Figure;
use crate::ink::{Dash, Ink};
use crate::labels::{add_cut, group_title, tell_lane};
use crate::sheet::{Anchor, Area, LETTER, Part, Point, Sheet, Style};
use std::alloc::{AllocError, Global};

/// Words over the columns.
fn head_style(ink: Ink, is_title: bool) -> Style {
    Style {
        ink,
        is_small: !is_title,
        is_bold: is_title,
        anchor: Anchor::Start,
        under: None,
    }
}

/// Writes the number of each row, or of each fifth where there are many.
pub(crate) fn draw_axis(sheet: &mut Sheet, figure: &Figure<'_>) -> Result<(), AllocError> {
    let few = figure.rows.tops.len() < 12;
    for top in figure.rows.tops.as_slice() {
        if few || top.0 % 5 == 0 {
            draw_row_number(sheet, top.0 as u64, top.1)?;
        }
    }
    Ok(())
}

/// Writes the number of a row that begins there.
fn draw_row_number(sheet: &mut Sheet, row: u64, top: u64) -> Result<(), AllocError> {
    sheet.add_all(&[
        Part::Length("<text x=\"30\" y=\"", top.saturating_add(130)),
        Part::Text("\" font-size=\"9\" fill=\"#5d6872\" text-anchor=\"end\">"),
        Part::Number(row),
        Part::Text("</text>\n"),
    ])
}

/// Writes the names of blocks, and of lanes.
pub(crate) fn draw_heads(
    alloc: Global,
    sheet: &mut Sheet,
    figure: &Figure<'_>,
) -> Result<(), AllocError> {
    let mut title = Vec::new(alloc);
    let mut text = Vec::new(alloc);
    let mut first = 0;
    for column in 0..figure.columns.len() {
        draw_lane_head(sheet, figure, &mut text, column, column == first)?;
        if ends_group(figure.columns, &figure.scene.picture.lanes, column) {
            let lane = figure.columns.lanes.get(first).copied();
            group_title(&figure.scene, lane, &mut title)?;
            draw_group(sheet, figure, &mut text, first, column, title.as_slice())?;
            first = column.saturating_add(1);
        }
    }
    Ok(())
}

/// The frame around the title of these columns.
fn group_area(figure: &Figure<'_>, first: usize, last: usize) -> Area {
    let left = figure.columns.at(first).saturating_sub(200);
    let right = figure
        .columns
        .at(last.saturating_add(1))
        .saturating_sub(240);
    Area {
        x: left,
        y: 180,
        width: right.saturating_sub(left),
        height: 160,
    }
}

/// Draws the title of the columns of a block, or of a port, as far as there is room. `text` is written anew.
fn draw_group(
    sheet: &mut Sheet,
    figure: &Figure<'_>,
    text: &mut Vec<u8>,
    first: usize,
    last: usize,
    title: &[u8],
) -> Result<(), AllocError> {
    let area = group_area(figure, first, last);
    if is_in_block(figure, first) {
        sheet.area(area, Ink::White, Ink::Faint, Dash::Whole)?;
    }
    let at = Point {
        x: area.x.saturating_add(50),
        y: 300,
    };
    text.clear();
    add_cut(text, title, area.width.saturating_sub(80), LETTER)?;
    sheet.words(at, text.as_slice(), head_style(Ink::Dark, true))
}

/// Whether the column is one of a block.
fn is_in_block(figure: &Figure<'_>, column: usize) -> bool {
    match figure.columns.lane(&figure.scene, column) {
        Some(lane) => block_of(lane).is_some(),
        None => false,
    }
}

/// Writes what the lane of a column is.
fn draw_lane_head(
    sheet: &mut Sheet,
    figure: &Figure<'_>,
    text: &mut Vec<u8>,
    column: usize,
    is_first: bool,
) -> Result<(), AllocError> {
    let lane = figure.columns.lane(&figure.scene, column);
    tell_lane(lane, is_first, text)?;
    let at = Point {
        x: figure.columns.at(column).saturating_sub(140),
        y: 480,
    };
    sheet.words(at, text.as_slice(), head_style(Ink::Soft, false))
}
