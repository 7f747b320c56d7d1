//! The words of `-D`, and the end of the words. A reader is told the place of its first word, and answers a form or the
//! place of the first refused word.
ghost use Rattle.std.specs.Prelude.{◌≡◌, ◌+◌, ◌<◌, ◌^◌, length, map, string_bytes, IsTrue, IfSome, Some};
ghost use Rattle.onbar_grammar.specs.Numbers.{is_name};
ghost use Rattle.command_grammar.specs.Words.{no_more, show_of_space, show_of_words};
ghost use Rattle.onbar_words.specs.Order.{form_in};
ghost use Rattle.onbar_words.specs.Readers.{form_read};

use crate::words::Form;
use bsa_descriptor::Text;
use onbar_grammar::{name_in, number_in};

/// The form, where no word follows it.
pub(crate) fn read_end(form: Form, at: u32, words: &[String]) -> Result<Form, u32>
    ensures { form_read result ≡ no_more (form_in form) at (map string_bytes words.now) }
{
    if words.is_empty() { Ok(form) } else { Err(at) }
}

fn read_page(space: Text<19>, at: u32, words: &[String]) -> Result<Form, u32>
    requires { at + length words.now < 2 ^ 32 }
    ensures { form_read result ≡ show_of_space space at (map string_bytes words.now) }
{
    let [word, rest @ ..] = words else {
        return Ok(Form::Show { space, page: None });
    };
    let page = number_in(word.as_bytes()).ok_or(at)?;
    let form = Form::Show {
        space,
        page: Some(page),
    };
    read_end(form, at + 1, rest)
}

/// `SPACE [PAGE]`
pub(crate) fn read_show(at: u32, words: &[String]) -> Result<Form, u32>
    requires { at + length words.now < 2 ^ 32 }
    ensures { form_read result ≡ show_of_words at (map string_bytes words.now) }
{
    let [word, rest @ ..] = words else {
        return Err(at);
    };
    let space = name_in(word.as_bytes()).ok_or(at)?;
    read_page(space, at + 1, rest)
}
