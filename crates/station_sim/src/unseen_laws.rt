ghost use Rattle.std.specs.Prelude.{ℕ, ◌≡◌, ◌+◌, List, None, Some};
ghost use Rattle.console_model.specs.Console as model;
ghost use Rattle.serial_link.specs.declared.talk.TalkItem.{TalkItem};
ghost use Rattle.station_sim.specs.declared.unseen.Unseen.{Unseen};
ghost use Rattle.schedule_file.specs.Fates.{FatesByNumber};
ghost use Rattle.station_sim.specs.Delivery.{delivered};
ghost use Rattle.station_sim.specs.Line.{Line, from_host, from_console, message_counted, sends_message, happens};
ghost use Rattle.station_sim.specs.Talk.{ConsoleTalk};
ghost use Rattle.station_sim.specs.Unseen.{IsUnseenMessage, IsUnseenReply, NamesFirst};
ghost use Rattle.station_sim.specs.UnseenTalk.{HasUnseen};

/// A message of the host is named as the first unseen delivery just if none was named before it, it came otherwise
/// than it was sent, and the console obeyed what came.
pub fn unseen_messages()
    ensures counted { (f : FatesByNumber) (message : List ℕ) (w : Line) → let number = w.messages + 1 in
        NamesFirst (IsUnseenMessage message (delivered (f.host number) message) w.console) (from_host number)
        w.unseen (message_counted f message w).unseen }
    ensures named { (f : FatesByNumber) (message : List ℕ) (w : Line) → let number = w.messages + 1 in w.unseen ≡ None
        → IsUnseenMessage message (delivered (f.host number) message) w.console
        → (sends_message f message w).unseen ≡ Some (from_host number) }
    ensures only { (f : FatesByNumber) (message : List ℕ) (w : Line) → let number = w.messages + 1 in w.unseen ≡ None
        → (sends_message f message w).unseen ≡ Some (from_host number)
        → IsUnseenMessage message (delivered (f.host number) message) w.console }
{}

/// A reply of the console is named as the first unseen delivery just if none was named before it, it came otherwise
/// than it was sent, and what came is taken for whole.
pub fn unseen_replies()
    ensures { (f : FatesByNumber) (o : model.Outcome) (w : Line) → let number = w.replies + 1 in
        NamesFirst (IsUnseenReply o (delivered (f.reply number) o.bytes)) (from_console number)
        w.unseen (happens f o w).unseen }
{}

/// A talk names an unseen delivery just if one of its deliveries is unseen, and what it names is one of these. What was
/// named stays.
pub fn unseen_deliveries()
    ensures named { (f : FatesByNumber) (talk : List TalkItem) (w v : Line) (which : Unseen) → w.unseen ≡ None
        → ConsoleTalk f talk w v → v.unseen ≡ Some which → HasUnseen f talk w which }
    ensures none { (f : FatesByNumber) (talk : List TalkItem) (w v : Line) → ConsoleTalk f talk w v → v.unseen ≡ None
        → (which : Unseen) → ¬ (HasUnseen f talk w which) }
    ensures stays { (f : FatesByNumber) (talk : List TalkItem) (w v : Line) (which : Unseen) → ConsoleTalk f talk w v
        → w.unseen ≡ Some which → v.unseen ≡ Some which }
{}
