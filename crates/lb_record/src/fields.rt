//! Fields behind their marks. After a refusal what stood in the text still stands in front.
ghost use Rattle.std.specs.Prelude.{◌≡◌, ◌∷◌, ◌++◌, OnOk, OnErr, map, decimal};
ghost use Rattle.std.specs.Fmt.{signed_decimal};
ghost use Rattle.lb_text.specs.Runs.{list_text, runs_text};
ghost use Rattle.lb_text.specs.Lines.{marked, StillStands};
ghost use Rattle.lb_record.specs.Fields.{ids_text, figure_text, figures_text, target_text};

use itoa::Buffer;
use lb_base::{Mask, NoMemory};
use lb_core::FigName;
use lb_text::{COLON, COMMA, SEMICOLON, SPACE, put_list, put_number};

// A word behind a space.
pub(crate) fn put_word(word: &str, to: &mut Vec<u8>) -> Result<(), NoMemory>
    ensures ok { OnOk result (to.new.items ≡ to.old.items ++ SPACE ∷ word.now) }
    ensures refused { OnErr result (StillStands to.old.items to.new.items) }
{
    to.extend_from_slice(b" ")?;
    to.extend_from_slice(word.as_bytes())?;
    Ok(())
}

// A number behind a mark.
pub(crate) fn put_count(mark: u8, number: u64, to: &mut Vec<u8>) -> Result<(), NoMemory>
    ensures ok { OnOk result (to.new.items ≡ to.old.items ++ mark ∷ decimal number) }
    ensures refused { OnErr result (StillStands to.old.items to.new.items) }
{
    to.extend_from_slice(&[mark])?;
    put_number(number, to)
}

// Numbers, each behind the mark.
pub(crate) fn put_counts(mark: u8, numbers: &[u32], to: &mut Vec<u8>) -> Result<(), NoMemory>
    ensures ok { OnOk result (to.new.items ≡ to.old.items ++ marked mark (map decimal numbers.now)) }
    ensures refused { OnErr result (StillStands to.old.items to.new.items) }
{
    for number in numbers {
        put_count(mark, u64::from(*number), to)?;
    }
    Ok(())
}

// A nice value behind a mark.
pub(crate) fn put_nice(mark: u8, nice: i32, to: &mut Vec<u8>) -> Result<(), NoMemory>
    ensures ok { OnOk result (to.new.items ≡ to.old.items ++ mark ∷ signed_decimal nice) }
    ensures refused { OnErr result (StillStands to.old.items to.new.items) }
{
    let mut digits = Buffer::new();
    to.extend_from_slice(&[mark])?;
    to.extend_from_slice(digits.format(nice).as_bytes())?;
    Ok(())
}

// The CPUs of a mask behind a space; `-` where there are none.
pub(crate) fn put_mask(mask: Mask, to: &mut Vec<u8>) -> Result<(), NoMemory>
    ensures ok { OnOk result (to.new.items ≡ to.old.items ++ SPACE ∷ list_text mask) }
    ensures refused { OnErr result (StillStands to.old.items to.new.items) }
{
    to.extend_from_slice(b" ")?;
    put_list(mask, to)
}

// The CPUs of masks, each behind a space.
pub(crate) fn put_masks(masks: &[Mask], to: &mut Vec<u8>) -> Result<(), NoMemory>
    ensures ok { OnOk result (to.new.items ≡ to.old.items ++ marked SPACE (map list_text masks.now)) }
    ensures refused { OnErr result (StillStands to.old.items to.new.items) }
{
    for mask in masks {
        put_mask(*mask, to)?;
    }
    Ok(())
}

// The CPUs of a mask behind a comma, as a line of a trace has them: nothing where there are none.
pub(crate) fn put_runs(mask: Mask, to: &mut Vec<u8>) -> Result<(), NoMemory>
    ensures ok { OnOk result (to.new.items ≡ to.old.items ++ COMMA ∷ runs_text mask) }
    ensures refused { OnErr result (StillStands to.old.items to.new.items) }
{
    to.extend_from_slice(b",")?;
    match mask.first() {
        None => Ok(()),
        Some(_) => put_list(mask, to),
    }
}

// Numbers of tasks behind a space; `-` where there are none.
pub(crate) fn put_ids(ids: &[u32], to: &mut Vec<u8>) -> Result<(), NoMemory>
    ensures ok { OnOk result (to.new.items ≡ to.old.items ++ SPACE ∷ ids_text ids.now) }
    ensures refused { OnErr result (StillStands to.old.items to.new.items) }
{
    match ids {
        [] => put_word("-", to),
        [first, rest @ ..] => {
            put_count(SPACE, u64::from(*first), to)?;
            put_counts(SEMICOLON, rest, to)
        }
    }
}

// A figure's name behind a mark.
fn put_figure(mark: u8, figure: FigName, to: &mut Vec<u8>) -> Result<(), NoMemory>
    ensures ok { OnOk result (to.new.items ≡ to.old.items ++ mark ∷ figure_text figure) }
    ensures refused { OnErr result (StillStands to.old.items to.new.items) }
{
    put_count(mark, u64::from(figure.cpu), to)?;
    put_count(COLON, figure.n, to)
}

// Names of figures behind a space.
pub(crate) fn put_figures(figures: &[FigName], to: &mut Vec<u8>) -> Result<(), NoMemory>
    ensures ok { OnOk result (to.new.items ≡ to.old.items ++ SPACE ∷ figures_text figures.now) }
    ensures refused { OnErr result (StillStands to.old.items to.new.items) }
{
    match figures {
        [] => {
            to.extend_from_slice(b" ")?;
            Ok(())
        }
        [first, rest @ ..] => {
            put_figure(SPACE, *first, to)?;
            put_more_figures(rest, to)
        }
    }
}

// Names of figures, each behind a comma.
fn put_more_figures(figures: &[FigName], to: &mut Vec<u8>) -> Result<(), NoMemory>
    ensures ok { OnOk result (to.new.items ≡ to.old.items ++ marked COMMA (map figure_text figures.now)) }
    ensures refused { OnErr result (StillStands to.old.items to.new.items) }
{
    for figure in figures {
        put_figure(COMMA, *figure, to)?;
    }
    Ok(())
}

// The target of a scan behind a space; `-` where there is none.
pub(crate) fn put_target(target: Option<u32>, to: &mut Vec<u8>) -> Result<(), NoMemory>
    ensures ok { OnOk result (to.new.items ≡ to.old.items ++ SPACE ∷ target_text target) }
    ensures refused { OnErr result (StillStands to.old.items to.new.items) }
{
    match target {
        None => put_word("-", to),
        Some(cpu) => put_count(SPACE, u64::from(cpu), to),
    }
}
