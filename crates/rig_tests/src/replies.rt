// What a call was told, as a list writes it.
use drawing::Refusal;
use ledger::Told;
use std::fmt;

// A refusal by its number, and the number of the feature that it names.
fn write_refusal<W: fmt::Write>(f: &mut fmt::Formatter<W>, refusal: Refusal) -> fmt::Result {
    let number = refusal.number();
    match refusal.feature() {
        Some(feature) => write!(f, "refused {number} {feature}"),
        None => write!(f, "refused {number}"),
    }
}

#[derive(Clone, Copy)]
pub(crate) struct Reply<'a>(pub(crate) &'a Told);

impl fmt::Display for Reply<'_> {
    fn fmt<W: fmt::Write>(&self, f: &mut fmt::Formatter<W>) -> fmt::Result {
        match self.0 {
            Told::Done(Ok(())) => f.write_str("ok"),
            Told::Laid(Ok(k)) => write!(f, "{k}"),
            Told::Standing(standing) => write!(f, "{standing}"),
            Told::Total(Ok(total)) => write!(f, "{total}"),
            Told::Worth(Ok(worth)) => write!(f, "{worth}"),
            Told::Label(Ok(label)) => write!(f, "{}", label.letter() as char),
            Told::Use(Ok((flow, spare))) => write!(f, "{flow} {spare}"),
            Told::Sheet(Ok(length)) => write!(f, "{length}"),
            Told::Done(Err(e))
            | Told::Laid(Err(e))
            | Told::Total(Err(e))
            | Told::Worth(Err(e))
            | Told::Label(Err(e))
            | Told::Use(Err(e))
            | Told::Sheet(Err(e)) => write_refusal(f, *e),
        }
    }
}
