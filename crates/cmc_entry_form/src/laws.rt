// What is so of each line that is read.
ghost use Rattle.base64.specs.GeneralPurpose.{IsBytes};
ghost use Rattle.cmc_entry_form.specs.Lines.{AnswerHasOctets, GivenHasForm, HasOctets, IsFormedRead, OrderHasOctets};

use cmc_lines::{PrintedLine, PrintedOrder};
use cmc_objects::{Object, Signing};
use cmc_status_form::read_has_form;

fn are_bytes(bytes: &[u8])
    ensures { IsBytes bytes.now }
{
    let _bytes = bytes;
}

fn given_has_form(object: &Option<Object>)
    ensures { GivenHasForm object.now }
{
    if let Some(object) = object {
        read_has_form(object);
    }
}

fn order_has_octets(order: &PrintedOrder)
    ensures { OrderHasOctets order.now }
{
    if let PrintedOrder::Csr { key, body } = order {
        are_bytes(key.as_slice());
        are_bytes(body.as_slice());
    }
}

fn answer_has_octets(answer: &Signing)
    ensures { AnswerHasOctets answer.now }
{
    if let Signing::Issued { certificate, ca } = answer {
        are_bytes(certificate.as_slice());
        are_bytes(ca.as_slice());
    }
}

fn has_octets(line: &PrintedLine)
    ensures { HasOctets line.now }
{
    match line {
        PrintedLine::Call { object, .. } => given_has_form(object),
        PrintedLine::Ask { order, .. } => order_has_octets(order),
        PrintedLine::Made { key, .. } => are_bytes(key.as_slice()),
        PrintedLine::Signed { signature, .. } => are_bytes(signature.as_slice()),
        PrintedLine::Answered { answer, .. } => answer_has_octets(answer),
        _ => {}
    }
}

/// A law: what is read of a line is shown by an entry of its form. The call changes nothing.
#[tactic(auto, using(crate::proofs::LinesSo::line_formed))]
pub fn line_is_formed(line: &PrintedLine)
    ensures { IsFormedRead line.now }
{
    has_octets(line);
}
