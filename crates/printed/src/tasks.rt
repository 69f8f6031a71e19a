// The lines of all classes of a group of work, which is asked by the numbers of tasks and classes: it has no list of them to go over.
ghost use Rattle.std.specs.Prelude.{◌≡◌, ◌<◌, ◌≤◌, ◌++◌, length};
ghost use Rattle.printed.specs.Text.{HasRoom};
ghost use Rattle.printed.specs.Lines.{heading, task_lines, all_lines};

use crate::line::Line;
use crate::text::Text;
use group::Group;

// A group of at most 64 tasks, whose classes have a line each.
#[derive(Drop)]
pub(crate) struct Lines<'g, G: Group> {
    pub(crate) group: &'g G,
    ghost few: { length (G.tasks group.now) ≤ 64 },
}

impl<'g, G: Group> Lines<'g, G> {
    // Appends the lines of a task.
    fn put_task(&self, text: &mut Text, task: u16)
        requires there { task < length (G.tasks self.now.group.now) }
        requires room { HasRoom text.old.bytes (task_lines (G.tasks self.now.group.now) task) }
        ensures { text.new.bytes ≡ text.old.bytes ++ task_lines (G.tasks self.now.group.now) task }
    {
        for class in 1..=self.group.class_count(task) {
            text.push_str(Line::of(self.group, task, class).text().as_str());
        }
    }

    // Appends the lines of all tasks.
    fn put_tasks(&self, text: &mut Text)
        requires { HasRoom text.old.bytes (all_lines (G.tasks self.now.group.now)) }
        ensures { text.new.bytes ≡ text.old.bytes ++ all_lines (G.tasks self.now.group.now) }
    {
        for task in 0..self.group.count() {
            self.put_task(text, task);
        }
    }

    // Appends the names of the columns, and the lines of all tasks.
    pub(crate) fn put(&self, text: &mut Text)
        requires { HasRoom text.old.bytes (heading ++ all_lines (G.tasks self.now.group.now)) }
        ensures { text.new.bytes ≡ text.old.bytes ++ (heading ++ all_lines (G.tasks self.now.group.now)) }
    {
        text.push_str("task class rank budget bound\n");
        self.put_tasks(text);
    }
}
