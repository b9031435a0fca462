//! What the cabinets have replied in a round, on its way to the master.

ghost use Rattle.std.specs.Prelude.{ℕ, ◌≡◌, ◌++◌, IfOk, OnOk};
ghost use Rattle.sig_types.specs.Items.{texts_of};
ghost use Rattle.sig_types.specs.Passes.{pass_of};
ghost use Rattle.sig_types.specs.Replies.{replied_on};
ghost use Rattle.run_definition.specs.CabinetState.{answers_in, answer_of};
ghost use Rattle.cab_book.specs.Happenings.{replies_in};
ghost use Rattle.round_run.specs.Replied.{replied_in, AreAnswers, EachAnswers};

use cab_book::{Answered, Book};
use cabinet_history::Reply;
use sig_types::{Answers, NoMemory, Octets, Way, pass_of};
use std::alloc::{AllocError, Global};

/// The same octets.
fn copied(octets: &Octets) -> Octets
    ensures { result.items ≡ octets.now.items }
{
    let mut copy = Octets::new();
    let _ = copy.try_extend_from_slice(octets.as_slice());
    copy
}

/// Appends the octets of a reply, where it answers a frame of this stream; silence adds nothing.
fn push_text(out: &mut Vec<Octets>, reply: &Reply, way: Way) -> Result<(), AllocError>
    ensures { OnOk result (texts_of out.new.items ≡ texts_of out.old.items ++ replied_on (pass_of way) (answer_of reply.now.pass reply.now.text)) }
{
    if reply.pass == pass_of(way) {
        match &reply.text {
            Some(text) => out.push(copied(text))?,
            None => {}
        }
    }
    Ok(())
}

/// The octets of the replies to the frames of a stream, in order.
fn texts_on(alloc: Global, replies: &[Answered], way: Way) -> Result<Vec<Octets>, NoMemory>
    ensures { IfOk result (λ texts. texts_of texts.items ≡ replied_on (pass_of way) (answers_in (replies_in replies.now))) }
{
    let mut texts = Vec::new(alloc);
    for answered in replies {
        if push_text(&mut texts, &answered.reply, way).is_err() {
            return Err(NoMemory);
        }
    }
    Ok(texts)
}

/// What a book has replied in its round on each of the three streams of messages.
fn answers_of(alloc: Global, book: &Book) -> Result<Answers, NoMemory>
    ensures { IfOk result (λ answers. AreAnswers answers (replied_in book.now)) }
{
    let polls = match texts_on(alloc, book.replies(), Way::Poll) {
        Ok(texts) => texts,
        Err(error) => return Err(error),
    };
    let loads = match texts_on(alloc, book.replies(), Way::Load) {
        Ok(texts) => texts,
        Err(error) => return Err(error),
    };
    match texts_on(alloc, book.replies(), Way::Prio) {
        Ok(prios) => Ok(Answers {
            polls,
            loads,
            prios,
        }),
        Err(error) => Err(error),
    }
}

/// What each book has replied in its round, in the order of the books; a frame that was ignored has no reply.
pub fn answers(alloc: Global, books: &Vec<Book>) -> Result<Vec<Answers>, NoMemory>
    ensures { IfOk result (λ all. EachAnswers all.items books.now.items) }
{
    let mut all = Vec::new(alloc);
    for book in books {
        let own = match answers_of(alloc, book) {
            Ok(own) => own,
            Err(error) => return Err(error),
        };
        if all.push(own).is_err() {
            return Err(NoMemory);
        }
    }
    Ok(all)
}
