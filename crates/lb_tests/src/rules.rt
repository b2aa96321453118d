//! Each rule is printed as its name.
use lb_core::Rule;

#[test]
fn each_rule_is_printed_as_its_name(rt: HostRuntime) {
    let names = [
        Rule::Ticket.name(),
        Rule::Prev.name(),
        Rule::Stage.name(),
        Rule::Row.name(),
        Rule::Place.name(),
        Rule::Reply.name(),
        Rule::Version.name(),
        Rule::Figure.name(),
        Rule::Decision.name(),
        Rule::Pick.name(),
        Rule::Flight.name(),
        Rule::Counters.name(),
        Rule::Owed.name(),
        Rule::End.name(),
    ];
    let wanted = [
        "ticket", "prev", "stage", "row", "place", "reply", "version", "figure", "decision",
        "pick", "flight", "counters", "owed", "end",
    ];
    assert!(rt; names == wanted);
}
