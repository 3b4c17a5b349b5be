//! Elements, written as SVG.

ghost use Rattle.std.specs.Prelude.{◌≡◌, IfOk, flat_map, string_bytes};
ghost use Rattle.flt_explain_picture.specs.Pictures as spec;

use crate::element::{Area, Colour, Element, Look};
use std::alloc::{AllocError, Global};
use std::fmt::Write;

fn colour_word(colour: Colour) -> &'static str
    ensures { result.now ≡ spec.colour_word colour }
{
    match colour {
        Colour::Blue => "#3465a4",
        Colour::Grey => "#909090",
        Colour::Orange => "#c07818",
        Colour::Green => "#4e8a3a",
        Colour::Purple => "#7a5a9a",
        Colour::Pink => "#fde3e6",
        Colour::White => "#ffffff",
    }
}

fn look_words(look: Look) -> &'static str
    ensures { result.now ≡ spec.look_words look }
{
    match look {
        Look::Plain => "fill=\"#202020\"",
        Look::Faint => "fill=\"#808080\"",
        Look::Before => "fill=\"#808080\" text-anchor=\"end\"",
        Look::Bad => "fill=\"#b00020\" font-weight=\"bold\"",
        Look::Inside => "fill=\"#ffffff\" text-anchor=\"middle\"",
        Look::Above => "fill=\"#808080\" text-anchor=\"middle\"",
        Look::Title => "fill=\"#202020\" font-weight=\"bold\"",
    }
}

// ---- words

/// Writes a letter, or its name if it would be markup.
fn put_letter(out: &mut String, letter: char) -> Result<(), AllocError>
    ensures { spec.Puts result (string_bytes out.old) (string_bytes out.new) (spec.escaped_letter letter) }
{
    match letter {
        '<' => out.push_str("&lt;"),
        '>' => out.push_str("&gt;"),
        '&' => out.push_str("&amp;"),
        _ => out.push(letter),
    }
}

fn put_escaped(out: &mut String, words: &str) -> Result<(), AllocError>
    ensures { spec.Puts result (string_bytes out.old) (string_bytes out.new) (spec.escaped words.now) }
{
    for letter in words.chars() {
        put_letter(out, letter)?;
    }
    Ok(())
}

#[tactic(auto, unfolding(crate::specs::Pictures::title_of))]
fn put_title(out: &mut String, title: &str) -> Result<(), AllocError>
    ensures { spec.Puts result (string_bytes out.old) (string_bytes out.new) (spec.title_of title.now) }
{
    out.push_str("<title>")?;
    put_escaped(out, title)?;
    out.push_str("</title>")
}

/// Writes the hint that is shown while a pointer is over words, unless it is empty.
fn put_hint(out: &mut String, hint: &str) -> Result<(), AllocError>
    ensures { spec.Puts result (string_bytes out.old) (string_bytes out.new) (spec.hint_of hint.now) }
{
    if hint.is_empty() {
        return Ok(());
    }
    put_title(out, hint)
}

// ---- elements

/// Writes an attribute that is a number, after a blank.
#[tactic(auto, unfolding(crate::specs::Pictures::attribute))]
fn put_attribute(out: &mut String, name: &str, number: usize) -> Result<(), AllocError>
    ensures { spec.Puts result (string_bytes out.old) (string_bytes out.new) (spec.attribute name.now number) }
{
    write!(out, " {name}=\"{number}\"")
}

/// Writes an attribute that is a word, after a blank.
#[tactic(auto, unfolding(crate::specs::Pictures::setting))]
fn put_setting(out: &mut String, name: &str, word: &str) -> Result<(), AllocError>
    ensures { spec.Puts result (string_bytes out.old) (string_bytes out.new) (spec.setting name.now word.now) }
{
    write!(out, " {name}=\"{word}\"")
}

#[tactic(auto, unfolding(crate::specs::Pictures::area_of))]
fn put_area(out: &mut String, area: Area) -> Result<(), AllocError>
    ensures { spec.Puts result (string_bytes out.old) (string_bytes out.new) (spec.area_of area) }
{
    put_attribute(out, "x", area.x)?;
    put_attribute(out, "y", area.y)?;
    put_attribute(out, "width", area.width)?;
    put_attribute(out, "height", area.height)
}

#[tactic(auto, unfolding(crate::specs::Pictures::fill))]
fn put_fill(out: &mut String, area: Area, colour: Colour) -> Result<(), AllocError>
    ensures { spec.Puts result (string_bytes out.old) (string_bytes out.new) (spec.fill area colour) }
{
    out.push_str("<rect")?;
    put_area(out, area)?;
    put_attribute(out, "rx", 3)?;
    put_setting(out, "fill", colour_word(colour))?;
    out.push_str("/>\n")
}

#[tactic(auto, unfolding(crate::specs::Pictures::rule))]
fn put_rule(out: &mut String, x: usize, top: usize, bottom: usize) -> Result<(), AllocError>
    ensures { spec.Puts result (string_bytes out.old) (string_bytes out.new) (spec.rule x top bottom) }
{
    out.push_str("<line")?;
    put_attribute(out, "x1", x)?;
    put_attribute(out, "y1", top)?;
    put_attribute(out, "x2", x)?;
    put_attribute(out, "y2", bottom)?;
    put_setting(out, "stroke", "#a0a0a0")?;
    put_attribute(out, "stroke-width", 2)?;
    out.push_str("/>\n")
}

/// Writes the beginning of words at a place.
#[tactic(auto, unfolding(crate::specs::Pictures::place))]
fn put_place(out: &mut String, x: usize, y: usize, look: Look) -> Result<(), AllocError>
    ensures { spec.Puts result (string_bytes out.old) (string_bytes out.new) (spec.place x y look) }
{
    out.push_str("<text")?;
    put_attribute(out, "x", x)?;
    put_attribute(out, "y", y)?;
    out.push_str(" ")?;
    out.push_str(look_words(look))?;
    out.push_str(">")
}

#[tactic(auto, unfolding(crate::specs::Pictures::words_at))]
fn put_words(
    out: &mut String,
    x: usize,
    y: usize,
    look: Look,
    words: &str,
    hint: &str,
) -> Result<(), AllocError>
    ensures { spec.Puts result (string_bytes out.old) (string_bytes out.new) (spec.words_at x y look words.now hint.now) }
{
    put_place(out, x, y, look)?;
    put_hint(out, hint)?;
    put_escaped(out, words)?;
    out.push_str("</text>\n")
}

fn put_element(out: &mut String, element: &Element) -> Result<(), AllocError>
    ensures { spec.Puts result (string_bytes out.old) (string_bytes out.new) (spec.written element.now) }
{
    match element {
        Element::Fill { area, colour } => put_fill(out, *area, *colour),
        Element::Rule { x, top, bottom } => put_rule(out, *x, *top, *bottom),
        Element::Words {
            x,
            y,
            look,
            words,
            hint,
        } => put_words(out, *x, *y, *look, words.as_str(), hint.as_str()),
    }
}

fn put_elements(out: &mut String, elements: &[Element]) -> Result<(), AllocError>
    ensures { spec.Puts result (string_bytes out.old) (string_bytes out.new) (flat_map spec.written elements.now) }
{
    for element in elements {
        put_element(out, element)?;
    }
    Ok(())
}

// ---- the picture

/// Writes the beginning of a picture of some size.
fn put_size(out: &mut String, width: usize, height: usize) -> Result<(), AllocError>
    ensures { spec.Puts result (string_bytes out.old) (string_bytes out.new) (spec.sized width height) }
{
    out.push_str(
        "<svg xmlns=\"http://www.w3.org/2000/svg\" role=\"img\" font-family=\"monospace\" font-size=\"12\"",
    )?;
    put_attribute(out, "width", width)?;
    put_attribute(out, "height", height)?;
    out.push_str(">\n")?;
    Ok(())
}

/// Writes the beginning of a picture of some size: its title, a white ground, and the title in its first line.
#[tactic(auto, unfolding(crate::specs::Pictures::opening))]
fn put_opening(out: &mut String, width: usize, height: usize, title: &str) -> Result<(), AllocError>
    ensures { spec.Puts result (string_bytes out.old) (string_bytes out.new) (spec.opening width height title.now) }
{
    put_size(out, width, height)?;
    put_title(out, title)?;
    out.push_str("\n")?;
    let ground = Area {
        x: 0,
        y: 0,
        width,
        height,
    };
    put_fill(out, ground, Colour::White)?;
    put_words(out, 35, 16, Look::Title, title, "")
}

/// The picture of some size that has this title and these elements.
#[tactic(auto, unfolding(crate::specs::Pictures::picture))]
pub(crate) fn written(
    alloc: Global,
    width: usize,
    height: usize,
    title: &str,
    elements: &[Element],
) -> Result<String, AllocError>
    ensures { IfOk result (λ text. string_bytes text ≡ spec.picture width height title.now elements.now) }
{
    let mut out = String::new(alloc);
    put_opening(&mut out, width, height, title)?;
    put_elements(&mut out, elements)?;
    out.push_str("</svg>")?;
    Ok(out)
}
