//! The fields of a text.
ghost use Rattle.std.specs.Prelude.{◌≡◌, ◌≢◌, [], ◌∷◌, length, slice_index, IfSome, IfNone};
ghost use Rattle.egt_fen.specs.Prelude.{position, option_map, line_of, is_space, is_other, runs_of, fields_of};
ghost use Rattle.egt_fen.specs.Prelude.{shown_fields};

/// The fields by name. The clocks may be left out, both of them.
#[derive(Clone, Copy)]
pub struct Fields<'a> {
    pub placement: &'a [u8],
    pub side: &'a [u8],
    pub castling: &'a [u8],
    pub target: &'a [u8],
    pub clocks: Option<(&'a [u8], &'a [u8])>,
}

/// The fields of a text; `None` where it has neither six nor four.
pub fn fields_of(text: &[u8]) -> Option<Fields<'_>>
    ensures { option_map shown_fields result ≡ fields_of text.now }
{
    let (placement, rest) = first_run(line_of(text))?;
    let (side, rest) = first_run(rest)?;
    let (castling, rest) = first_run(rest)?;
    let (target, rest) = first_run(rest)?;
    let clocks = match first_run(rest) {
        None => None,
        Some((halfmove, rest)) => {
            let (fullmove, rest) = first_run(rest)?;
            if first_run(rest).is_some() {
                return None;
            }
            Some((halfmove, fullmove))
        }
    };
    Some(Fields {
        placement,
        side,
        castling,
        target,
        clocks,
    })
}

/// The text without the carriage return at its very end, where there is one.
fn line_of(text: &[u8]) -> &[u8]
    ensures { result.now ≡ line_of text.now }
{
    match text {
        [line @ .., b'\r'] => line,
        _ => text,
    }
}

/// The first run of bytes other than the space, and what stands behind it.
fn first_run(text: &[u8]) -> Option<(&[u8], &[u8])>
    ensures some { IfSome result (λ run. runs_of text.now ≡ run.0.now ∷ runs_of run.1.now) }
    ensures none { IfNone result (runs_of text.now ≡ []) }
{
    let run = without_spaces(text);
    if run.is_empty() {
        return None;
    }
    Some(run.split_at(first_space(run).unwrap_or(run.len())))
}

/// The text without the spaces at its front.
fn without_spaces(text: &[u8]) -> &[u8]
    ensures same { runs_of result.now ≡ runs_of text.now }
    ensures begins { slice_index result.now 0 ≢ 32 }
{
    let (_, rest) = text.split_at(first_other(text).unwrap_or(text.len()));
    rest
}

/// The place of the first space.
fn first_space(text: &[u8]) -> Option<usize>
    ensures { result ≡ position is_space text.now }
{
    text.iter().position(|byte| *byte == b' ')
}

/// The place of the first byte other than the space.
fn first_other(text: &[u8]) -> Option<usize>
    ensures { result ≡ position is_other text.now }
{
    text.iter().position(|byte| *byte != b' ')
}
