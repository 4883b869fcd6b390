// What is shown of the answer to an event, and of a meter that is lent beside the call.
use answer::{note_number, number};
use call::reply::Reply;
use flow_meter::Meter;
use message_types::kind_octet;
use rights::Service;
use sent::Message;
use services::Said;
use text::line::Line;
use text::service::service_digit;

// All that is shown goes on one sheet, which is then sent; what does not fit is left out. Each program has a sheet of
// its own.
pub(crate) type Sheet = Line<4096>;

fn show_said(sheet: &mut Sheet, service: Service, s: Said) {
    let what: &[u8] = match s {
        Said::Nothing => return,
        Said::Preferred => b".p",
        Said::Required => b".r",
        Said::Accepted => b".ok",
        Said::ByUser => b".user",
        Said::ByNetwork => b".network",
    };
    sheet.put(b",");
    sheet.put(&[service_digit(service)]);
    sheet.put(what);
}

// The type in hexadecimal, then the cause, whether the element goes out, and what is said of services.
fn show_message(sheet: &mut Sheet, m: Message) {
    sheet.put(b" ");
    sheet.put_hex(kind_octet(m.kind));
    if let Some(cause) = m.cause {
        sheet.put(b".");
        sheet.put_decimal(u64::from(cause));
    }
    if m.element {
        sheet.put(b"+");
    }
    show_said(sheet, Service::One, m.said.one);
    show_said(sheet, Service::Two, m.said.two);
    show_said(sheet, Service::Three, m.said.three);
}

fn show_sent(sheet: &mut Sheet, s: Option<Message>) {
    match s {
        None => sheet.put(b" -"),
        Some(m) => show_message(sheet, m),
    }
}

fn show_number(sheet: &mut Sheet, n: u64) {
    sheet.put(b" ");
    sheet.put_decimal(n);
}

pub(crate) fn show_reply(sheet: &mut Sheet, name: &[u8], r: Reply) {
    sheet.put(name);
    sheet.put(b":");
    show_number(sheet, u64::from(number(r.answer)));
    show_number(sheet, u64::from(note_number(r.note)));
    show_sent(sheet, r.dispatch.calling);
    show_sent(sheet, r.dispatch.called);
}

// What a lent meter answered, and what it then holds: credit, mark and count.
pub(crate) fn show_lent(sheet: &mut Sheet, number: u8, m: Meter) {
    sheet.put(b" lent");
    show_number(sheet, u64::from(number));
    show_number(sheet, u64::from(m.credit));
    show_number(sheet, u64::from(m.mark));
    show_number(sheet, u64::from(m.count));
    sheet.put(b"\n");
}
