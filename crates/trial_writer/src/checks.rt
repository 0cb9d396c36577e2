// What a content is refused for. Version 1 has neither a third code nor a third list that could be looked at.
ghost use Rattle.std.specs.Prelude.{◌≡◌, []};
ghost use Rattle.reply.specs.Reply.{served, unless};
ghost use Rattle.poly.specs.Replies.{checked_reply};
ghost use Rattle.trial.specs.Rules.{today};
ghost use Rattle.trial.specs.Trial.{head_causes};
ghost use Rattle.trial.specs.Replies.{length_causes, repeat_causes, list_causes, name_causes, content_causes};
ghost use Rattle.trial_writer.specs.Inner.{head_of, lists_of, trial_of};

use crate::content::Content;
use codes::check_three;
use euclid::check_coprime;
use levels::distinct;
use poly::Degree;
use reply::Refusal;
use trial::printable;

// What a head is refused for. The check of three codes judges the degree too.
fn check_head(content: &Content<'_>) -> Result<(), Refusal>
    ensures { checked_reply result ≡ unless (head_causes today (head_of content.now)) (served []) }
{
    if let Some(third) = content.third {
        return check_three(content.degree, content.f, content.g, third.h);
    }
    if (Degree { n: content.degree }).outside_sheets() {
        return Err(Refusal::SheetDegree);
    }
    check_coprime(content.degree, content.f, content.g)
}

// Whether the lists have so many levels each.
fn check_lengths(content: &Content<'_>, count: usize) -> Result<(), Refusal>
    ensures { checked_reply result ≡ unless (length_causes count (lists_of content.now)) (served []) }
{
    if content.powers.len() != count {
        return Err(Refusal::SliceLength);
    }
    if content.forces.len() != count {
        return Err(Refusal::SliceLength);
    }
    let Some(third) = content.third else {
        return Ok(());
    };
    if third.times.len() != count {
        return Err(Refusal::SliceLength);
    }
    Ok(())
}

// Whether the levels differ within each list.
fn check_levels(content: &Content<'_>) -> Result<(), Refusal>
    ensures { checked_reply result ≡ unless (repeat_causes (lists_of content.now)) (served []) }
{
    if !distinct(content.powers) {
        return Err(Refusal::LevelRepeated);
    }
    if !distinct(content.forces) {
        return Err(Refusal::LevelRepeated);
    }
    let Some(third) = content.third else {
        return Ok(());
    };
    if !distinct(third.times) {
        return Err(Refusal::LevelRepeated);
    }
    Ok(())
}

// What the lists are refused for, where each is to have so many levels: all lengths come first.
fn check_lists(content: &Content<'_>, count: usize) -> Result<(), Refusal>
    ensures { checked_reply result ≡ unless (list_causes count (lists_of content.now)) (served []) }
{
    check_lengths(content, count)?;
    check_levels(content)
}

// What a name is refused for.
fn check_name(name: &[u8]) -> Result<(), Refusal>
    ensures { checked_reply result ≡ unless (name_causes name.now) (served []) }
{
    if 40 < name.len() {
        return Err(Refusal::NameLength);
    }
    if !printable(name) {
        return Err(Refusal::NameByte);
    }
    Ok(())
}

// What a content is refused for.
pub(crate) fn check_content(content: &Content<'_>) -> Result<(), Refusal>
    ensures { checked_reply result ≡ unless (content_causes (trial_of content.now)) (served []) }
{
    check_head(content)?;
    let order = (Degree { n: content.degree }).order()?;
    check_lists(content, order as usize)?;
    check_name(content.name)
}
